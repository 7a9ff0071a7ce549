// Chains of records that have a rank, linked by number in one table.
// One rule serves every kind of record: a record goes behind all of equal or higher rank.
// Several chains share a table. A chain is known by its head, the number of its first record,
// and means the list of its numbers in order.
// The heads stand with the owners of the chains, where a ghost field keeps that each chain ends. So the
// operations ask for that: a table that kept the heads itself would have to be told which one is meant. They ask
// that a number is within the table too, since how many links there are is settled at run time.
#![tactic(auto)]

ghost use Rattle.std.specs.Prelude.{◌≡◌, ℕ, ◌-◌, ◌<◌, ◌≤◌, Bool, true, false, ◌∷◌, length, drop, replicate, IfOk, Some, None, ◌==◌, nat_le, nat_lt, slice_index_or, slice_set};
ghost use Rattle.chain.specs.Chains.{Ends, Relinked, chain, last_before, nexts, records};
ghost use Rattle.chain.specs.Laws.{Chosen, Linked, TakenOut};
ghost use Rattle.chain.specs.Lists.{first, has, join, rank_in, rest, rising, without};

use std::alloc::{AllocError, Global};

// A kind of record that has a rank. A smaller number ranks above. Nothing here ranks all alike by default: a kind that forgot
// its rank would then pass as one of those that do.
pub trait Ranked {
    // what the rank means
    ghost rank: { Self → ℕ };

    // whether x ranks with y or above it
    ghost above: { Self → Self → Bool };

    // Whether `self`, coming later, goes behind `other`.
    fn goes_behind(&self, other: &Self) -> bool
        ensures { result ≡ above other.now self.now };

    // any two ranks compare
    ghost total: { (x : Self) (y : Self) → above x y ≡ false → above y x ≡ true };

    // the comparison carries over
    ghost transitive: { (x : Self) (y : Self) (z : Self) → above x y ≡ true → above y z ≡ true → above x z ≡ true };

    // it goes by the rank
    ghost ranks: { (x : Self) (y : Self) → above x y ≡ nat_le (rank x) (rank y) };
}

// A record and the number of the next one: the project has fixed this form (docs/DECISIONS.md).
#[derive(Clone, Copy, Drop)]
pub struct Link<R> {
    pub record: R,
    pub next: Option<usize>,
}

// The table of links that chains run through. Once it is made, no operation on a chain needs heap.
#[derive(Drop)]
pub struct Links<R> {
    links: Vec<Link<R>>,
}

// The numbers of a chain, from its head on.
#[derive(Drop)]
pub struct Numbers<'a, R> {
    links: &'a Links<R>,
    at: Option<usize>,
    // what is left of the chain ends
    ghost ends: { Ends (nexts links.now) at },
}

impl<R> Iterator for Numbers<'_, R> {
    ghost use Rattle.chain.specs.Walks.{numbers_left};
    ghost use Rattle.std.specs.Iterator.{YieldsFirst, item_count};

    type Item = usize;

    ghost next_gives = { YieldsFirst numbers_left };

    ghost remaining = { item_count numbers_left };

    fn next(&mut self) -> Option<usize> {
        let k = self.at?;
        self.at = self.links.next_of(k);
        Some(k)
    }
}

impl<R: Copy> Links<R> {
    // `n` links with the same record, which lead nowhere, or an error where memory is wanting.
    pub fn of(heap: Global, n: usize, blank: R) -> Result<Links<R>, AllocError>
        ensures records { IfOk result (λ t. records t ≡ replicate n blank) }
        ensures nexts { IfOk result (λ t. nexts t ≡ replicate n None) }
    {
        // Room for just `n` links: a `resize` from nothing makes room for four at least. `vec!` would clone, and it is not said
        // that a clone of an `R` is the same.
        let mut links = Vec::with_capacity(heap, n)?;
        links.resize(
            n,
            Link {
                record: blank,
                next: None,
            },
        )?;
        Ok(Links { links })
    }
}

impl<R: Drop> Links<R> {
    // Puts a record in the place of that with the number `k`, and leaves all else.
    pub fn replace(&mut self, k: usize, with: R)
        requires { k < length (nexts self.old) }
        ensures next { nexts self.new ≡ nexts self.old }
        ensures records { records self.new ≡ slice_set (records self.old) k with }
    {
        self.links[k].record = with;
    }
}

impl<R> Links<R> {
    ghost use Rattle.chain.specs.Walks.{numbers_left};

    // The number of links.
    pub fn len(&self) -> usize
        ensures { result ≡ length (nexts self.now) }
    {
        self.links.len()
    }

    // The record with the number `k`.
    pub fn record_at(&self, k: usize) -> &R
        requires { k < length (nexts self.now) }
        ensures { (none : R) → result.now ≡ slice_index_or (records self.now) k none }
    {
        &self.links[k].record
    }

    // The number that link `k` leads to.
    pub fn next_of(&self, k: usize) -> Option<usize>
        requires { k < length (nexts self.now) }
        ensures { result ≡ slice_index_or (nexts self.now) k None }
    {
        self.links[k].next
    }

    // Lets link `from` lead to `to`, and leaves all else.
    fn lead(&mut self, from: usize, to: Option<usize>)
        requires { from < length (nexts self.old) }
        ensures next { nexts self.new ≡ slice_set (nexts self.old) from to }
        ensures records { records self.new ≡ records self.old }
    {
        self.links[from].next = to;
    }

    // Puts number `i` straight behind number `p`.
    fn link_behind(&mut self, p: usize, i: usize)
        requires { (p < length (nexts self.old)) × (i < length (nexts self.old)) }
        ensures next { nexts self.new ≡ slice_set (slice_set (nexts self.old) i (slice_index_or (nexts self.old) p None)) p (Some i) }
        ensures records { records self.new ≡ records self.old }
    {
        let rest = self.next_of(p);
        self.lead(i, rest);
        self.lead(p, Some(i));
    }

    // Puts number `i`, which is not on the chain, at its head.
    pub fn put_first(&mut self, head: &mut Option<usize>, i: usize)
        requires ends { Ends (nexts self.old) head.old }
        requires within { i < length (nexts self.old) }
        requires fresh { has i (chain (nexts self.old) head.old) ≡ false }
        ensures links { Relinked (nexts self.old) (nexts self.new) head.new
            (i ∷ chain (nexts self.old) head.old)
            (i ∷ chain (nexts self.old) head.old) }
        ensures records { records self.new ≡ records self.old }
    {
        self.lead(i, *head);
        *head = Some(i);
    }

    // Takes the first number off the chain.
    pub fn take_first(&self, head: &mut Option<usize>) -> Option<usize>
        requires { Ends (nexts self.now) head.old }
        ensures ends { Ends (nexts self.now) head.new }
        ensures first { result ≡ first (chain (nexts self.now) head.old) }
        ensures rest { chain (nexts self.now) head.new ≡ rest (chain (nexts self.now) head.old) }
        ensures laws { Chosen result (chain (nexts self.now) head.old) (chain (nexts self.now) head.new) }
    {
        let i = (*head)?;
        *head = self.next_of(i);
        Some(i)
    }

    // The numbers of the chain, in order.
    pub fn numbers(&self, head: Option<usize>) -> Numbers<'_, R>
        requires { Ends (nexts self.now) head }
        ensures { numbers_left result ≡ chain (nexts self.now) head }
    {
        Numbers {
            links: self,
            at: head,
        }
    }

    // Whether number `i` is on the chain.
    pub fn is_on(&self, head: Option<usize>, i: usize) -> bool
        requires { Ends (nexts self.now) head }
        ensures { result ≡ has i (chain (nexts self.now) head) }
    {
        self.numbers(head).any(|k| k == i)
    }

    // The number at a place of the chain, counted from 0, if the chain is that long.
    pub fn number_at(&self, head: Option<usize>, place: usize) -> Option<usize>
        requires { Ends (nexts self.now) head }
        ensures { result ≡ first (drop place (chain (nexts self.now) head)) }
    {
        self.numbers(head).nth(place)
    }

    // The number of the chain that leads to number `i`, or its last if none does.
    fn last_before(&self, head: Option<usize>, i: usize) -> Option<usize>
        requires { Ends (nexts self.now) head }
        ensures { result ≡ last_before (λ k. k == i) None (chain (nexts self.now) head) }
    {
        self.numbers(head).take_while(|&k| k != i).last()
    }

    // Takes number `i`, which is on the chain, out of it.
    fn unlink(&mut self, head: &mut Option<usize>, i: usize)
        requires ends { Ends (nexts self.old) head.old }
        requires on { has i (chain (nexts self.old) head.old) ≡ true }
        ensures links { Relinked (nexts self.old) (nexts self.new) head.new
            (without i (chain (nexts self.old) head.old))
            (chain (nexts self.old) head.old) }
        ensures records { records self.new ≡ records self.old }
    {
        let rest = self.next_of(i);
        match self.last_before(*head, i) {
            None => *head = rest,
            Some(p) => self.lead(p, rest),
        }
    }

    // Takes number `i` out of the chain, if it is there.
    pub fn take_out(&mut self, head: &mut Option<usize>, i: usize)
        requires { Ends (nexts self.old) head.old }
        ensures links { Relinked (nexts self.old) (nexts self.new) head.new
            (without i (chain (nexts self.old) head.old))
            (chain (nexts self.old) head.old) }
        ensures records { records self.new ≡ records self.old }
        ensures laws { TakenOut i (chain (nexts self.old) head.old) (chain (nexts self.new) head.new) }
    {
        if self.is_on(*head, i) {
            self.unlink(head, i);
        }
    }

    // Links all numbers but the first, in rising order, and gives the head.
    pub fn link_all_but_first(&mut self) -> Option<usize>
        ensures links { Relinked (nexts self.old) (nexts self.new) result
            (rising 1 (length (nexts self.old) - 1)) (rising 1 (length (nexts self.old) - 1)) }
        ensures records { records self.new ≡ records self.old }
    {
        let mut head = None;
        for i in (1..self.len()).rev() {
            self.put_first(&mut head, i);
        }
        head
    }
}

impl<R: Ranked> Links<R> {
    // Whether the record with the number `i` ranks above that with the number `k`.
    fn ranks_above(&self, i: usize, k: usize) -> bool
        requires { (i < length (nexts self.now)) × (k < length (nexts self.now)) }
        ensures { result ≡ nat_lt (rank_in R.Ranked.rank (records self.now) i) (rank_in R.Ranked.rank (records self.now) k) }
    {
        !self.record_at(i).goes_behind(self.record_at(k))
    }

    // The last number of the chain that number `i` goes behind.
    fn last_above(&self, head: Option<usize>, i: usize) -> Option<usize>
        requires ends { Ends (nexts self.now) head }
        requires within { i < length (nexts self.now) }
        ensures { result ≡ last_before (λ k. nat_lt (rank_in R.Ranked.rank (records self.now) i) (rank_in R.Ranked.rank (records self.now) k)) None (chain (nexts self.now) head) }
    {
        self.numbers(head)
            .take_while(|&k| !self.ranks_above(i, k))
            .last()
    }

    // Puts number `i`, which is not on the chain, behind all of equal or higher rank.
    pub fn link_by_rank(&mut self, head: &mut Option<usize>, i: usize)
        requires ends { Ends (nexts self.old) head.old }
        requires within { i < length (nexts self.old) }
        requires fresh { has i (chain (nexts self.old) head.old) ≡ false }
        ensures links { Relinked (nexts self.old) (nexts self.new) head.new
            (join (rank_in R.Ranked.rank (records self.old)) i (chain (nexts self.old) head.old))
            (i ∷ chain (nexts self.old) head.old) }
        ensures records { records self.new ≡ records self.old }
        ensures laws { Linked (rank_in R.Ranked.rank (records self.old)) i
            (chain (nexts self.old) head.old) (chain (nexts self.new) head.new) }
    {
        match self.last_above(*head, i) {
            None => self.put_first(head, i),
            Some(p) => self.link_behind(p, i),
        }
    }
}
