// What is counted of the names of objects, as the tree changes.
ghost use Rattle.std.specs.Prelude.{◌≡◌, ◌⊎◌, IfOk};
ghost use Rattle.std.specs.FinMap as map;
ghost use Rattle.kern_model.specs.Entries.{entry_count};
ghost use Rattle.fs_dirs.specs.Entries.{entries_alone, spot_of};
ghost use Rattle.fs_dirs.specs.HolderLabels.{AreCounted, AreNames, IsSameNames, Names, label_in, names_held, with_found, with_name};

use crate::NoMemory;
use crate::entries::Entries;
use crate::holder_labels::{HolderLabels, LabelCounts};
use crate::links::Holder;
use crate::spots::SpotRef;
use fs_nodes::Nodes;
use kern_model::Oid;
use lab_lattice::{Label, bottom};
use std::alloc::Global;

// The label of an object, or the bottom where there is none.
fn label_of(nodes: &Nodes, id: &Oid) -> Label
    ensures { result ≡ label_in nodes.now.table.objects id.now }
{
    match nodes.get(id) {
        Some(object) => object.label,
        None => bottom(),
    }
}

/// How many names stand at each label of these directories.
pub fn count_labels(
    alloc: Global,
    nodes: &Nodes,
    holders: &[Holder],
) -> Result<LabelCounts, NoMemory>
    ensures { IfOk result (λ counts. AreNames counts (names_held nodes.now.table.objects holders.now)) }
{
    let mut counts = LabelCounts::new(alloc);
    for holder in holders {
        counts.add(&label_of(nodes, &holder.dir()), u32::from(holder.further))?;
    }
    Ok(counts)
}

/// Counts one more name of an object in a directory, if the object is counted.
pub fn count_name(labels: &mut HolderLabels, nodes: &Nodes, id: &Oid, dir: &Oid)
    ensures { (names : Names) → AreCounted labels.old names → AreCounted labels.new (with_name names id.now (label_in nodes.now.table.objects dir.now)) }
{
    if labels.is_counted(id) {
        labels.add_name(id, &label_of(nodes, dir));
    }
}

/// Counts one name less of an object in a directory, if the object is counted.
pub fn uncount_name(labels: &mut HolderLabels, nodes: &Nodes, id: &Oid, dir: &Oid)
    ensures { (names : Names) → AreCounted labels.old (with_name names id.now (label_in nodes.now.table.objects dir.now)) → AreCounted labels.new names }
{
    if labels.is_counted(id) {
        labels.take_name(id, &label_of(nodes, dir));
    }
}

/// The same, if there is an object.
pub fn uncount_found(labels: &mut HolderLabels, nodes: &Nodes, found: &Option<Oid>, dir: &Oid)
    ensures { (names : Names) → AreCounted labels.old (with_found names found.now (label_in nodes.now.table.objects dir.now)) → AreCounted labels.new names }
{
    if let Some(id) = found {
        uncount_name(labels, nodes, id, dir);
    }
}

/// The object to which an entry leads, if it is there. Where no object is counted, it is not looked up.
pub fn look_where_counted(
    labels: &HolderLabels,
    entries: &Entries,
    spot: &SpotRef<'_>,
) -> Option<Oid>
    ensures { (labels.now ≡ map.empty) ⊎ (result ≡ map.get entries.now (spot_of spot.now)) }
{
    if labels.is_empty() {
        return None;
    }
    entries.look(spot.dir, spot.name)
}

/// Has no object counted any more, if names stand in a directory, which gets another label.
pub fn clear_counts(labels: &mut HolderLabels, entries: &Entries, dir: &Oid)
    ensures { (names others : Names) → (entry_count (entries_alone entries.now) dir.now ≡ 0 → IsSameNames names others) → AreCounted labels.old names → AreCounted labels.new others }
{
    if labels.is_empty() {
        return;
    }
    if entries.len(dir) > 0 {
        labels.clear();
    }
}
