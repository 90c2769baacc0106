// The descriptors of all processes, and the open descriptions.
ghost use Rattle.std.specs.Prelude.{◌≡◌, ◌+◌, ◌<◌, ◌≤◌, ℕ, true, false, None, Some, Err, IfErr, IfOk, IsOk, IsSome, Ok, OnErr, OnOk, cond, option_map, unsigned_abs};
ghost use Rattle.std.specs.FinMap as map;
ghost use Rattle.kern_model.specs.Descriptors.{lowest_free};
ghost use Rattle.kern_model.specs.Keys.{same_pid};
ghost use Rattle.kern_model.specs.State.{Description, last_drawn};
ghost use Rattle.kern_model.specs.Valid.{IsThere};
ghost use Rattle.kern_model.specs.declared.limits.TheConstants.{MAX_DESCRIPTIONS, MAX_DESCRIPTORS};
ghost use Rattle.kern_model.specs.declared.numbers.Did.{Did as Number};
ghost use Rattle.kern_model.specs.declared.numbers.Pid.{Pid as Process};
ghost use Rattle.fd_table.specs.Files.{ForDescription, description_at, did_at, objects_after_close, fds_at, has_reader, has_writer, how_of, is_no_memory, is_past, left_with, next_in, no_files, open_refusal, opened_at, opened_for, with_dup, with_fds_of, with_offset, with_opened};
ghost use Rattle.fd_table.specs.Descriptions.{description_of};
ghost use Rattle.fd_table.specs.Fds.{HasFree, fd_count, fds_of};

use crate::descriptions::Descriptions;
use crate::fd_slots::FdSlots;
use crate::fifo::let_go;
use crate::opened::Opened;
use crate::process_fds::ProcessFds;
use crate::shared::{How, Shared};
use fs_nodes::Buffers;
use kern_model::limits::{MAX_DESCRIPTIONS, MAX_DESCRIPTORS};
use kern_model::{Did, Fd, NoMemory, Numbers, Oid, Pid};
use lab_lattice::Label;
use std::alloc::Global;
use std::marker::Model;

/// Why a call on descriptors is refused.
#[derive(Clone, Copy, Debug, PartialEq, Eq)]
pub enum FdError {
    /// The descriptor is not open (`EBADF`).
    NotOpen,
    /// Too few descriptors of the process are free (`EMFILE`).
    TooMany,
    /// Too few numbers of descriptions are left at the label (`ENFILE`).
    Full,
    /// The offset is negative, or past the end (`EINVAL`).
    PastEnd,
    NoMemory(NoMemory),
}

impl From<NoMemory> for FdError {
    ghost use Rattle.std.specs.Prelude.{◌≡◌};
    ghost use Rattle.fd_table.specs.declared.table.FdError.TheVariants as error;

    ghost from_gives = { λ e n. n ≡ error.NoMemory e };

    fn from(e: NoMemory) -> Self {
        FdError::NoMemory(e)
    }
}

/// The descriptors of processes, the open descriptions to which they refer, and the last number of a description drawn of each
/// label.
pub struct FdTable {
    processes: ProcessFds,
    descriptions: Descriptions,
    numbers: Numbers,
}

impl Drop for FdTable {
    fn drop(self) {
        let FdTable {
            processes: _,
            descriptions: _,
            numbers: _,
        } = self;
    }
}

impl Model for FdTable {
    ghost use Rattle.std.specs.Coded.{codes};
    ghost use Rattle.lab_lattice.specs.Label.{label_code};
    ghost use Rattle.fd_table.specs.Descriptions.{descriptions_of};
    ghost use Rattle.fd_table.specs.Files.{AreHeld, OpenFiles, open_files_code};

    ghost Value = { OpenFiles };

    ghost coded = { open_files_code (Prim.hlevel (codes, label_code)) (Prim.hlevel (codes, label_code)) (Prim.hlevel (codes, label_code)) label_code };

    ghost view = { λ t. record { processes = t.processes; descriptions = descriptions_of t.descriptions; numbers = t.numbers } };

    ghost invariant = { λ t. AreHeld t.processes t.descriptions t.numbers };
}

// An offset as a number of bytes, where it is within so many.
fn offset_within(to: i64, size: u32) -> Option<u32>
    ensures { result ≡ cond (is_past to size) None (Some (unsigned_abs to)) }
{
    if to < 0 || to > i64::from(size) {
        return None;
    }
    Some(to as u32)
}

impl FdTable {
    /// No process and no description, and no number drawn.
    pub fn new(alloc: Global) -> Self
        ensures { result ≡ no_files }
    {
        FdTable {
            processes: ProcessFds::new(alloc),
            descriptions: Descriptions::new(alloc),
            numbers: Numbers::new(alloc),
        }
    }

    /// Adds a process, which has no descriptor.
    pub fn add_process(&mut self, who: &Pid) -> Result<(), NoMemory>
        requires { map.get self.old.processes who.now ≡ None }
        ensures ok { OnOk result (self.new ≡ with_fds_of self.old who.now map.empty) }
        ensures err { OnErr result (self.new ≡ self.old) }
    {
        self.processes.add(who, FdSlots::new())
    }

    /// Adds a process, which has no descriptor, where it is not there.
    pub fn reserve(&mut self, who: &Pid) -> Result<(), NoMemory>
        ensures process { OnOk result (IsThere self.new.processes who.now) }
        ensures same { (q : Process) → fds_of self.new.processes q ≡ fds_of self.old.processes q }
        ensures others { (q : Process) → same_pid q who.now ≡ false → map.get self.new.processes q ≡ map.get self.old.processes q }
        ensures descriptions { self.new.descriptions ≡ self.old.descriptions }
        ensures numbers { self.new.numbers ≡ self.old.numbers }
    {
        if self.processes.has(who) {
            return Ok(());
        }
        self.add_process(who)
    }

    /// Adds a process, whose descriptors refer to the same descriptions as those of another process.
    pub fn copy_process(&mut self, from: &Pid, to: &Pid) -> Result<(), NoMemory>
        requires { map.get self.old.processes to.now ≡ None }
        ensures ok { OnOk result (self.new ≡ with_fds_of self.old to.now (fds_at self.old from.now)) }
        ensures err { OnErr result (self.new ≡ self.old) }
    {
        let slots = self.processes.copy(from);
        self.processes.add(to, slots.copy())?;
        for fd in 0..MAX_DESCRIPTORS as Fd {
            if let Some(did) = slots.get(fd) {
                self.descriptions.hold(&did);
            }
        }
        Ok(())
    }

    /// Closes all descriptors of a process and removes the process, if it is there. It takes no memory.
    pub fn drop_process<B: Buffers>(&mut self, who: &Pid, buffers: &mut B)
        ensures left { self.new ≡ left_with self.old (map.remove self.old.processes who.now) }
        ensures drained { B.objects buffers.new ≡ objects_after_close self.old.descriptions self.new.descriptions (B.objects buffers.old) }
        ensures rest { B.rest_same buffers.old buffers.new }
    {
        let Some(slots) = self.processes.remove(who) else {
            return;
        };
        for fd in 0..MAX_DESCRIPTORS as Fd {
            if let Some(did) = slots.get(fd) {
                let_go(&mut self.descriptions, &did, buffers);
            }
        }
    }

    /// Why `n` descriptions are not opened, if so.
    #[inline(always)]
    pub fn open_refusal(&self, who: &Pid, label: &Label, n: u32) -> Option<FdError>
        ensures { result ≡ open_refusal self.now who.now label.now n }
    {
        if self.processes.count(who) + n as usize > MAX_DESCRIPTORS {
            return Some(FdError::TooMany);
        }
        if self.numbers.last(label) as usize + n as usize > MAX_DESCRIPTIONS {
            return Some(FdError::Full);
        }
        None
    }

    /// Opens an object under the next number of a label, at the lowest free descriptor of a process, which it returns. The
    /// program asks [`open_refusal`](FdTable::open_refusal), and calls [`open_next`](FdTable::open_next).
    ///
    /// # Errors
    ///
    /// `TooMany` where all descriptors are open, else `Full` where all numbers of the label are drawn.
    pub fn open_at_lowest(
        &mut self,
        who: &Pid,
        label: &Label,
        id: Oid,
        how: How,
    ) -> Result<Fd, FdError>
        requires { IsThere self.old.processes who.now }
        ensures refused { (e : FdError) → open_refusal self.old who.now label.now 1 ≡ Some e → result ≡ Err e }
        ensures memory { open_refusal self.old who.now label.now 1 ≡ None → IfErr result (λ e. is_no_memory e ≡ true) }
        ensures fd { IfOk result (λ fd. fd ≡ lowest_free (fds_at self.old who.now)) }
        ensures opened { OnOk result (self.new ≡ with_opened self.old who.now label.now (opened_for id how)) }
        ensures err { OnErr result (self.new ≡ self.old) }
    {
        if let Some(refusal) = self.open_refusal(who, label, 1) {
            return Err(refusal);
        }
        Ok(self.open_next(who, label, id, how)?)
    }

    /// The same for a caller who knows that it is not refused.
    pub fn open_next(&mut self, who: &Pid, label: &Label, id: Oid, how: How) -> Result<Fd, NoMemory>
        requires there { IsThere self.old.processes who.now }
        requires room { open_refusal self.old who.now label.now 1 ≡ None }
        ensures fd { IfOk result (λ fd. fd ≡ lowest_free (fds_at self.old who.now)) }
        ensures opened { OnOk result (self.new ≡ with_opened self.old who.now label.now (opened_for id how)) }
        ensures err { OnErr result (self.new ≡ self.old) }
    {
        let fd = self.processes.lowest(who);
        let did = self.next(label);
        self.descriptions.insert(&did, id, how)?;
        if let Err(e) = self.numbers.set(*label, did.n) {
            self.descriptions.release(&did);
            return Err(e);
        }
        self.processes.set(who, fd, did);
        Ok(fd)
    }

    // The number of the next description at a label.
    fn next(&self, label: &Label) -> Did
        requires { last_drawn self.now.numbers label.now < MAX_DESCRIPTIONS }
        ensures { result ≡ next_in self.now label.now }
    {
        let n = self.numbers.last(label) + 1;
        Did { label: *label, n }
    }

    /// Has the lowest free descriptor of a process, which it returns, refer to the description to which another refers. It
    /// takes no memory.
    ///
    /// # Errors
    ///
    /// `NotOpen` where the descriptor is not open, else `TooMany` where all descriptors are open.
    pub fn dup(&mut self, who: &Pid, fd: Fd) -> Result<Fd, FdError>
        ensures not_open { did_at self.old who.now fd ≡ None → result ≡ Err FdError.NotOpen }
        ensures too_many { IsSome (did_at self.old who.now fd) → MAX_DESCRIPTORS ≤ fd_count (fds_at self.old who.now) → result ≡ Err FdError.TooMany }
        ensures fd { IsSome (did_at self.old who.now fd) → HasFree (fds_at self.old who.now) → result ≡ Ok (lowest_free (fds_at self.old who.now)) }
        ensures made { (did : Number) → did_at self.old who.now fd ≡ Some did → OnOk result (self.new ≡ with_dup self.old who.now did) }
        ensures err { OnErr result (self.new ≡ self.old) }
    {
        let did = self.did(who, fd).ok_or(FdError::NotOpen)?;
        if self.processes.count(who) >= MAX_DESCRIPTORS {
            return Err(FdError::TooMany);
        }
        let lowest = self.processes.lowest(who);
        self.set(who, lowest, did);
        Ok(lowest)
    }

    /// Closes a descriptor of a process. A description to which no descriptor refers any more goes, and with the last one of a
    /// FIFO its bytes. It takes no memory.
    ///
    /// # Errors
    ///
    /// `NotOpen` where the descriptor is not open.
    pub fn close<B: Buffers>(&mut self, who: &Pid, fd: Fd, buffers: &mut B) -> Result<(), FdError>
        ensures not_open { did_at self.old who.now fd ≡ None → result ≡ Err FdError.NotOpen }
        ensures open { IsSome (did_at self.old who.now fd) → IsOk result }
        ensures left { OnOk result (self.new ≡ left_with self.old (map.insert self.old.processes who.now (map.remove (fds_at self.old who.now) fd))) }
        ensures drained { OnOk result (B.objects buffers.new ≡ objects_after_close self.old.descriptions self.new.descriptions (B.objects buffers.old)) }
        ensures err { OnErr result (self.new ≡ self.old) }
        ensures untouched { OnErr result (B.objects buffers.new ≡ B.objects buffers.old) }
        ensures rest { B.rest_same buffers.old buffers.new }
    {
        let did = self.did(who, fd).ok_or(FdError::NotOpen)?;
        self.processes.free(who, fd);
        let_go(&mut self.descriptions, &did, buffers);
        Ok(())
    }

    /// What a descriptor refers to, if it is open.
    pub fn opened(&self, who: &Pid, fd: Fd) -> Option<Opened>
        ensures { result ≡ opened_at self.now who.now fd }
    {
        let did = self.did(who, fd)?;
        let shared = self.descriptions.get(&did)?;
        Some(Opened {
            did,
            object: shared.object,
            how: shared.how,
            offset: shared.offset,
        })
    }

    /// The object on which a descriptor is open, if it is open.
    pub fn object(&self, who: &Pid, fd: Fd) -> Option<Oid>
        ensures { result ≡ option_map (λ (d : Description). d.object) (description_at self.now who.now fd) }
    {
        Some(self.shared(who, fd)?.object)
    }

    /// What a descriptor is open for, if it is open.
    pub fn how(&self, who: &Pid, fd: Fd) -> Option<How>
        ensures { result ≡ option_map how_of (description_at self.now who.now fd) }
    {
        Some(self.shared(who, fd)?.how)
    }

    /// The offset of a descriptor in bytes, if it is open.
    pub fn offset(&self, who: &Pid, fd: Fd) -> Option<u32>
        ensures { result ≡ option_map (λ (d : Description). d.offset) (description_at self.now who.now fd) }
    {
        Some(self.shared(who, fd)?.offset)
    }

    /// Sets the offset of a descriptor on a file of `size` bytes, and returns it. It takes no memory.
    ///
    /// # Errors
    ///
    /// `NotOpen` where the descriptor is not open, else `PastEnd` where the offset is negative or above the size.
    pub fn seek(&mut self, who: &Pid, fd: Fd, to: i64, size: u32) -> Result<u32, FdError>
        ensures not_open { did_at self.old who.now fd ≡ None → result ≡ Err FdError.NotOpen }
        ensures past_end { IsSome (did_at self.old who.now fd) → is_past to size ≡ true → result ≡ Err FdError.PastEnd }
        ensures offset { IsSome (did_at self.old who.now fd) → is_past to size ≡ false → result ≡ Ok (unsigned_abs to) }
        ensures moved { ForDescription self.old who.now fd (λ did d. OnOk result (self.new ≡ with_offset self.old did d (unsigned_abs to))) }
        ensures err { OnErr result (self.new ≡ self.old) }
        ensures processes { self.new.processes ≡ self.old.processes }
    {
        let did = self.did(who, fd).ok_or(FdError::NotOpen)?;
        let offset = offset_within(to, size).ok_or(FdError::PastEnd)?;
        self.descriptions.set_offset(&did, offset);
        Ok(offset)
    }

    // The description to which a descriptor refers, if it is open.
    fn did(&self, who: &Pid, fd: Fd) -> Option<Did>
        ensures did { result ≡ did_at self.now who.now fd }
        ensures below { (did : Number) → result ≡ Some did → fd < MAX_DESCRIPTORS }
        ensures process { (did : Number) → result ≡ Some did → IsThere self.now.processes who.now }
        ensures there { (did : Number) → result ≡ Some did → IsThere self.now.descriptions did }
    {
        self.processes.did(who, fd)
    }

    // The same, with what is kept of it.
    fn shared(&self, who: &Pid, fd: Fd) -> Option<Shared>
        ensures { option_map description_of result ≡ description_at self.now who.now fd }
    {
        let did = self.did(who, fd)?;
        self.descriptions.get(&did)
    }

    // Has a descriptor that is free refer to a description. It takes no memory.
    fn set(&mut self, who: &Pid, fd: Fd, did: Did)
        requires process { IsThere self.old.processes who.now }
        requires free { did_at self.old who.now fd ≡ None }
        requires below { fd < MAX_DESCRIPTORS }
        requires there { IsThere self.old.descriptions did }
        ensures { self.new ≡ with_fds_of self.old who.now (map.insert (fds_at self.old who.now) fd did) }
    {
        self.descriptions.hold(&did);
        self.processes.set(who, fd, did);
    }

    /// Whether an object has a description for reading.
    pub fn has_reader(&self, id: &Oid) -> bool
        ensures { result ≡ has_reader self.now id.now }
    {
        self.descriptions.has_reader(id)
    }

    /// Whether an object has a description for writing.
    pub fn has_writer(&self, id: &Oid) -> bool
        ensures { result ≡ has_writer self.now id.now }
    {
        self.descriptions.has_writer(id)
    }
}
