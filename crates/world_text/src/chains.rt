// Items in order, each with a hash, that are found by their hashes.
ghost use Rattle.std.specs.Prelude.{◌≡◌, ℕ, ◌+◌, ◌<◌, ◌≤◌, ◌^◌, ◌%◌, [], ◌∷◌, ◌++◌, OnOk, IfOk, length};
ghost use Rattle.world_text.specs.Chains.{IsAlong, IsChained, IsLast, before_in, hashes_of, number_of};

use crate::NoMemory;
use std::alloc::Global;
use std::marker::Model;

// The fewest buckets, once there is an item.
const MIN_BUCKETS: usize = 16;

/// An item's hash, and the number, from 1 on, of the item before it in its bucket; 0 if there is none.
#[derive(Clone, Copy)]
struct Link {
    hash: u32,
    before: u32,
}

/// Items in order, each with a hash. Those of one bucket are a chain, from the last to the first, so few are looked at to find
/// one. It is seen as the hashes of the items.
#[derive(Drop)]
pub struct Chains {
    // The number of the last item in each bucket; 0 if there is none.
    heads: Vec<u32>,
    links: Vec<Link>,
}

impl Model for Chains {
    ghost use Rattle.std.specs.Prelude.{List, ℕ};
    ghost use Rattle.world_text.specs.Chains.{IsChained, hashes_of, before_in};

    ghost Value = { List ℕ };

    ghost view = { λ c. hashes_of c.links.items };

    ghost invariant = { λ c. IsChained c.heads.items (hashes_of c.links.items) (before_in c.links.items) };
}

// The bucket of a hash.
fn bucket_of(hash: u32, buckets: usize) -> usize
    requires { 0 < buckets }
    ensures bucket { result ≡ hash % buckets }
    ensures within { result < buckets }
{
    hash as usize % buckets
}

// Where the chain of a hash begins before the first items, of which there are so many, or shortly after them.
fn start_of(heads: &[u32], links: &[Link], hash: u32, count: usize) -> u32
    requires chained { IsChained heads.now (hashes_of links.now) (before_in links.now) }
    requires within { count ≤ length links.now }
    ensures { IsAlong (length heads.now) hash (hashes_of links.now) count result }
{
    if heads.is_empty() {
        return 0;
    }
    if count < links.len() && links[count].hash == hash {
        return links[count].before;
    }
    heads[bucket_of(hash, heads.len())]
}

impl Chains {
    /// No item. It does not allocate until there is one.
    pub fn new(alloc: Global) -> Chains
        ensures { result ≡ [] }
    {
        Chains {
            heads: Vec::new(alloc),
            links: Vec::new(alloc),
        }
    }

    // No item, in so many buckets.
    fn with_buckets(alloc: Global, buckets: usize) -> Result<Chains, NoMemory>
        ensures { IfOk result (λ chains. chains ≡ []) }
    {
        Ok(Chains {
            heads: vec![in alloc; 0u32; buckets]?,
            links: Vec::with_capacity(alloc, buckets)?,
        })
    }

    // The same items in twice as many buckets.
    fn widened(&self, alloc: Global) -> Result<Chains, NoMemory>
        ensures { IfOk result (λ chains. chains ≡ self.now) }
    {
        let buckets = MIN_BUCKETS.max(2 * self.heads.len());
        let mut chains = Chains::with_buckets(alloc, buckets)?;
        for link in &self.links {
            chains.append(link.hash)?;
        }
        Ok(chains)
    }

    // Appends an item where there is a bucket.
    fn append(&mut self, hash: u32) -> Result<(), NoMemory>
        ensures { OnOk result (self.new ≡ self.old ++ hash ∷ []) }
    {
        let count = self.links.len();
        if self.heads.is_empty() || count >= u32::MAX as usize {
            return Err(NoMemory);
        }
        let bucket = bucket_of(hash, self.heads.len());
        let before = self.heads[bucket];
        self.links.push(Link { hash, before })?;
        self.heads[bucket] = (count + 1) as u32;
        Ok(())
    }

    /// Appends an item with this hash.
    pub fn push(&mut self, alloc: Global, hash: u32) -> Result<(), NoMemory>
        ensures { OnOk result (self.new ≡ self.old ++ hash ∷ []) }
    {
        if self.links.len() >= self.heads.len() {
            *self = self.widened(alloc)?;
        }
        self.append(hash)
    }

    /// Where the last of the first items, of which there are so many, stands that has a hash.
    pub fn last_before(&self, hash: u32, count: usize) -> Option<usize>
        requires { count ≤ length self.now }
        ensures { IsLast (λ h. h ≡ hash) self.now count (number_of result) }
    {
        let mut at = start_of(&self.heads, &self.links, hash, count) as usize;
        while at > 0 && (at > count || self.links[at - 1].hash != hash) {
            at = self.links[at - 1].before as usize;
        }
        at.checked_sub(1)
    }
}
