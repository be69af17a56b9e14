// The two watched literals of each clause, and for each literal the clauses that watch it (Moskewicz, Madigan, Zhao,
// Zhang and Malik, "Chaff", 2001). What holds between pairs and lists is said by the search, in `cdcl` and in
// docs/WATCHES.md; the calls here say which entry they write.
ghost use Rattle.std.specs.Prelude.{List, ◌≡◌, ◌≢◌, ◌⊎◌, ℕ, ◌+◌, ◌-◌, ◌<◌, [], ◌∷◌, ◌++◌, length, IfOk, OnOk, OnErr};
ghost use Rattle.std.specs.Prelude.{get_or, set};
ghost use Rattle.cdcl_tables.specs.Nothing.{no_watch, no_pair};

use base::Mem;
use cnf_base::Lit;
use smallvec::SmallVec;
use std::alloc::Global;
use std::marker::Model;
use std::mem;

/// The two literals that a clause is watched by.
#[derive(Clone, Copy)]
pub struct Pair {
    pub first: Lit,
    pub second: Lit,
}

/// The literal of a pair beside one of them.
pub fn other_of(pair: Pair, one: Lit) -> Lit
    ensures stands { (result ≡ pair.first) ⊎ (result ≡ pair.second) }
    ensures different { (pair.first ≡ pair.second → ⊥) → result ≢ one }
{
    if pair.first == one {
        pair.second
    } else {
        pair.first
    }
}

/// The place of a clause that watches a literal, and a literal of it that may be true already.
#[derive(Clone, Copy, Default)]
pub struct Watch {
    pub place: u32,
    pub blocker: Lit,
}

/// The clauses that watch a literal. Up to two of them take no memory of their own.
#[derive(Drop)]
pub struct WatchList {
    watches: SmallVec<Watch, 2>,
}

impl Model for WatchList {
    ghost use Rattle.std.specs.Prelude.{List};
    ghost use Rattle.cdcl_tables.specs.declared.watches.Watch.{Watch};

    ghost Value = { List Watch };

    ghost view = { λ a. a.watches.items };
}

impl WatchList {
    /// No watch.
    pub fn new(alloc: Global) -> WatchList
        ensures { result ≡ [] }
    {
        WatchList {
            watches: SmallVec::new(alloc),
        }
    }

    /// How many watches there are.
    pub fn len(&self) -> usize
        ensures { result ≡ length self.now }
    {
        self.watches.len()
    }

    /// The watch at an index.
    pub fn get(&self, i: usize) -> Watch
        requires { i < length self.now }
        ensures { result ≡ get_or self.now i no_watch }
    {
        self.watches.as_slice()[i]
    }

    /// Another watch at an index.
    pub fn set(&mut self, i: usize, watch: Watch)
        requires { i < length self.old }
        ensures { self.new ≡ set self.old i watch }
    {
        self.watches.as_mut_slice()[i] = watch;
    }

    /// One more watch, at the end. After want of memory the list is as before.
    pub fn push(&mut self, watch: Watch) -> Mem<()>
        ensures ok { OnOk result (self.new ≡ self.old ++ watch ∷ []) }
        ensures err { OnErr result (self.new ≡ self.old) }
    {
        self.watches.push(watch)?;
        Ok(())
    }

    /// Removes a watch, and puts the last one into its place.
    pub fn remove(&mut self, i: usize)
        requires { i < length self.old }
        ensures len { length self.new + 1 ≡ length self.old }
        ensures moved { i + 1 < length self.old
            → get_or self.new i no_watch ≡ get_or self.old (length self.old - 1) no_watch }
        ensures kept { (k : ℕ) → k < length self.new → (k ≡ i → ⊥)
            → get_or self.new k no_watch ≡ get_or self.old k no_watch }
    {
        self.watches.swap_remove(i);
    }
}

fn empty_lists(alloc: Global, count: usize) -> Mem<Vec<WatchList>>
    ensures len { IfOk result (λ lists. length lists.items ≡ count) }
    ensures empty { IfOk result (λ lists. (i : ℕ) → get_or lists.items i [] ≡ []) }
{
    let mut lists = Vec::with_capacity(alloc, count)?;
    for _ in 0..count {
        lists.push(WatchList::new(alloc))?;
    }
    Ok(lists)
}

/// The pair of each clause, and the list of each literal, by its code.
#[derive(Drop)]
pub struct Watches {
    pub pairs: Vec<Pair>,
    pub lists: Vec<WatchList>,
}

impl Watches {
    ghost use Rattle.std.specs.Prelude.{List, ◌≡◌, ℕ, ◌+◌, ◌-◌, ◌<◌, [], ◌∷◌, ◌++◌, length, IfOk, OnOk, OnErr, get_or};
    ghost use Rattle.std.specs.Prelude.{set};
    ghost use Rattle.cdcl_tables.specs.Nothing.{no_watch, no_pair};

    /// No pair, and an empty list for each literal of a code below `literals`.
    pub fn new(alloc: Global, literals: usize) -> Mem<Watches>
        ensures pairs { IfOk result (λ w. w.pairs.items ≡ []) }
        ensures len { IfOk result (λ w. length w.lists.items ≡ literals) }
        ensures empty { IfOk result (λ w. (i : ℕ) → get_or w.lists.items i [] ≡ []) }
    {
        Ok(Watches {
            pairs: Vec::new(alloc),
            lists: empty_lists(alloc, literals)?,
        })
    }

    /// The pair of the clause at a place.
    pub fn pair(&self, place: u32) -> Pair
        requires { place < length self.now.pairs.items }
        ensures { result ≡ get_or self.now.pairs.items place no_pair }
    {
        self.pairs[place as usize]
    }

    /// The clause at a place is watched by `first` from now on, beside `second`.
    pub fn move_to(&mut self, place: u32, first: Lit, second: Lit) -> Mem<()>
        requires place { place < length self.old.pairs.items }
        requires first { first < length self.old.lists.items }
        ensures pairs { OnOk result (self.new.pairs.items ≡ set self.old.pairs.items place
            (record { first = first; second = second })) }
        ensures lists { OnOk result (self.new.lists.items ≡ set self.old.lists.items first
            (get_or self.old.lists.items first [] ++ record { place = place; blocker = second } ∷ [])) }
    {
        let watch = Watch {
            place,
            blocker: second,
        };
        self.push(first, watch)?;
        self.pairs[place as usize] = Pair { first, second };
        Ok(())
    }

    /// Takes the list of a literal out, and leaves an empty one.
    pub fn take_list(&mut self, alloc: Global, literal: Lit) -> WatchList
        requires { literal < length self.old.lists.items }
        ensures list { result ≡ get_or self.old.lists.items literal [] }
        ensures lists { self.new.lists.items ≡ set self.old.lists.items literal [] }
        ensures pairs { self.new.pairs.items ≡ self.old.pairs.items }
    {
        let empty = WatchList::new(alloc);
        mem::replace(&mut self.lists[literal.code() as usize], empty)
    }

    /// Puts a list in place of that of a literal.
    pub fn put_list(&mut self, literal: Lit, list: WatchList)
        requires { literal < length self.old.lists.items }
        ensures lists { self.new.lists.items ≡ set self.old.lists.items literal list }
        ensures pairs { self.new.pairs.items ≡ self.old.pairs.items }
    {
        self.lists[literal.code() as usize] = list;
    }

    /// Puts a watch into the list of a literal.
    pub fn push(&mut self, literal: Lit, watch: Watch) -> Mem<()>
        requires { literal < length self.old.lists.items }
        ensures lists { OnOk result (self.new.lists.items ≡ set self.old.lists.items literal
            (get_or self.old.lists.items literal [] ++ watch ∷ [])) }
        ensures pairs { OnOk result (self.new.pairs.items ≡ self.old.pairs.items) }
    {
        self.lists[literal.code() as usize].push(watch)
    }
}
