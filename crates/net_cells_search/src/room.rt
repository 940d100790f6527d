// The search.
ghost use Rattle.std.specs.Prelude.{◌≡◌, ℕ, ◌+◌, ◌*◌, ◌^◌, ◌<◌, ◌≤◌, ◌≢◌, length, true, pos, ◌+ℤ◌, ◌-ℤ◌, ◌≤ℤ◌, ◌<ℤ◌, ◌⊎◌, false, unsigned_abs, SomeIff, IfSome, IfNone, slice_index};
ghost use Rattle.net_cells.specs.Net.{Feasible, reduced};
ghost use Rattle.net_cells.specs.Search.{IsEnd, Searched, Lowered};
ghost use Rattle.net_cells.specs.Fenced.{Fenced, Bounded};
ghost use Rattle.net_cells.specs.Lists.{view, head, inner_of, excess_in, potential_in, potential_of, cost_in, number};
ghost use Rattle.net_cells_search.specs.Marks.{far, label_of, way_of, open_of, Blank, IsLower, NoneOpen};

use crate::lower::lower_one;
use crate::marks::{meet, shut};
use crate::queue::Queue;
use net_cells::{Cell, Costs, Mark, Side, Way, lacks, potential_at};

/// A search on lent slices, all blank between two searches: what it knows of each cell, the cells that have a label, and what waits.
#[derive(Drop)]
pub struct Room<'m, 't, 'h, 's> {
    pub marks: &'m mut [Mark],
    pub touched: &'t mut [u32],
    pub count: usize,
    pub queue: Queue<'h, 's>,
    pub source: usize,
    /// Only ends nearer than this are looked for.
    pub within: i32,
    /// The label of `target`, the nearest end met, or `within` where none was.
    pub bound: i32,
    pub target: usize,
}

// What a step leads to: `cost` more than the label and potential at its tail, less the potential at its head.
#[inline(always)]
fn reach(base: i32, cost: i32, there: i32) -> i32
    requires base { unsigned_abs base ≤ 2 ^ 30 + 2 ^ 28 }
    requires cost { unsigned_abs cost ≤ 1000 }
    requires there { unsigned_abs there ≤ 2 ^ 28 }
    ensures { result ≡ (base +ℤ cost) -ℤ there }
{
    base + cost - there
}

impl<'m, 't, 'h, 's> Room<'m, 't, 'h, 's> {
    ghost use Rattle.net_cells_search.specs.Room.{search, from_of, Going, Stopped, RoomFor, SameTask, effort_of, Led, Taken, Unchanged, Started, Chosen, Idle, Kept};
    ghost use Rattle.net_cells_search.specs.Lower.{lowered, FallenAt, Forgotten, Fallen};

    // Gives cell `v` a label, and the bound too where it is an end.
    #[inline(always)]
    fn take(&mut self, cells: &[Cell], side: Side, v: usize, way: Way, r: i32)
        requires cell { v < length cells.now }
        requires size { length cells.now ≤ 263169 }
        requires room { RoomFor (length cells.now) self.old }
        requires more { self.old.count ≤ length cells.now }
        ensures room { RoomFor (length cells.now) self.new }
        ensures task { SameTask self.old self.new }
        ensures taken { Taken cells.now side v (number way) r self.old self.new }
    {
        let end = lacks(cells, side, v);
        meet(
            self.marks,
            self.touched,
            &mut self.count,
            v,
            Mark {
                label: r,
                way,
                waits: !end,
            },
        );
        if end {
            self.bound = r;
            self.target = v;
        } else {
            self.queue.push(r, v as u32);
        }
    }

    // Whether `r` is less than the label of `v` and than the bound.
    #[inline(always)]
    fn lowers(&self, v: usize, r: i32) -> bool
        requires { v < length self.now.marks.now }
        ensures yes { result ≡ true → IsLower self.now.marks.now v self.now.bound r }
        ensures no { result ≡ false → (label_of self.now.marks.now v ≤ℤ r) ⊎ (self.now.bound ≤ℤ r) }
    {
        r < self.bound && r < self.marks[v].label
    }

    // The label and the potential of cell `u`.
    #[inline(always)]
    fn base(&self, cells: &[Cell], side: Side, u: usize) -> i32
        requires mark { u < length self.now.marks.now }
        requires cell { u < length cells.now }
        requires label { unsigned_abs (label_of self.now.marks.now u) ≤ 2 ^ 30 }
        requires potential { unsigned_abs (potential_of cells.now u) ≤ 2 ^ 28 }
        requires seen { unsigned_abs (potential_in cells.now side u) ≤ 2 ^ 28 }
        ensures { result ≡ label_of self.now.marks.now u +ℤ potential_in cells.now side u }
    {
        self.marks[u].label + potential_at(cells, side, u)
    }

    // Relaxes one way of cell `u`; `base` is its label and its potential.
    #[inline(always)]
    fn relax(&mut self, cells: &[Cell], costs: &[Costs], side: Side, u: usize, base: i32, way: Way)
        requires fenced { Fenced cells.now costs.now side }
        requires feasible { Feasible (view cells.now costs.now side) }
        requires bounded { Bounded cells.now }
        requires room { RoomFor (length cells.now) self.old }
        requires inner { inner_of cells.now u ≡ true }
        requires base { base ≡ label_of self.old.marks.now u +ℤ potential_in cells.now side u }
        requires going { Going (view cells.now costs.now side) u (number way) self.old }
        ensures room { RoomFor (length cells.now) self.new }
        ensures task { SameTask self.old self.new }
        ensures base { label_of self.new.marks.now u ≡ label_of self.old.marks.now u }
        ensures going { Going (view cells.now costs.now side) u (number way + 1) self.new }
        ensures effort { effort_of self.new ≤ effort_of self.old }
    {
        let v = side.head(u, way);
        let r = reach(
            base,
            side.cost(costs, u, v, way),
            potential_at(cells, side, v),
        );
        if self.lowers(v, r) {
            self.take(cells, side, v, way, r);
        }
    }

    // Relaxes the four ways of cell `u`.
    #[inline(always)]
    fn scan(&mut self, cells: &[Cell], costs: &[Costs], side: Side, u: usize)
        requires fenced { Fenced cells.now costs.now side }
        requires feasible { Feasible (view cells.now costs.now side) }
        requires bounded { Bounded cells.now }
        requires room { RoomFor (length cells.now) self.old }
        requires inner { inner_of cells.now u ≡ true }
        requires going { Going (view cells.now costs.now side) u 0 self.old }
        ensures room { RoomFor (length cells.now) self.new }
        ensures task { SameTask self.old self.new }
        ensures going { Going (view cells.now costs.now side) 0 4 self.new }
        ensures effort { effort_of self.new ≤ effort_of self.old }
    {
        let base = self.base(cells, side, u);
        self.relax(cells, costs, side, u, base, Way::Right);
        self.relax(cells, costs, side, u, base, Way::Left);
        self.relax(cells, costs, side, u, base, Way::Up);
        self.relax(cells, costs, side, u, base, Way::Down);
    }

    // Whether cell `u` waits nearer than the bound.
    #[inline(always)]
    fn waits(&self, u: usize) -> bool
        ensures cell { result ≡ true → u < length self.now.marks.now }
        ensures waits { result ≡ true → open_of self.now.marks.now u ≡ true }
        ensures near { result ≡ true → label_of self.now.marks.now u <ℤ self.now.bound }
        ensures none { result ≡ false → u < length self.now.marks.now →
            open_of self.now.marks.now u ≡ true →
            self.now.bound ≤ℤ label_of self.now.marks.now u }
    {
        u < self.marks.len() && self.marks[u].waits && self.marks[u].label < self.bound
    }

    // The cell that the queue names.
    #[inline(always)]
    fn advised(&mut self) -> Option<usize>
        ensures unchanged { Unchanged self.old self.new }
        ensures cell { IfSome result (λ u. u < length self.new.marks.now) }
        ensures waits { IfSome result (λ u. open_of self.new.marks.now u ≡ true) }
        ensures near { IfSome result (λ u. label_of self.new.marks.now u <ℤ self.new.bound) }
    {
        let bound = self.bound;
        while let Some(u) = self.queue.pop(bound) {
            if self.waits(u) {
                return Some(u);
            }
        }
        None
    }

    // One of the cells with a label that waits nearer than the bound.
    fn left_out(&self) -> Option<usize>
        requires room { self.now.count ≤ length self.now.touched.now }
        requires listed { (k : ℕ) → k < self.now.count → slice_index self.now.touched.now k <
            length self.now.marks.now }
        ensures cell { IfSome result (λ u. u < length self.now.marks.now) }
        ensures waits { IfSome result (λ u. open_of self.now.marks.now u ≡ true) }
        ensures near { IfSome result (λ u. label_of self.now.marks.now u <ℤ self.now.bound) }
        ensures none { IfNone result (NoneOpen self.now.marks.now self.now.touched.now
            self.now.count self.now.bound) }
    {
        for k in 0..self.count {
            let u = self.touched[k] as usize;
            if self.waits(u) {
                return Some(u);
            }
        }
        None
    }

    // Begins at a cell.
    fn begin(&mut self, source: usize, within: i32)
        requires cell { source < length self.old.marks.now }
        requires size { length self.old.marks.now ≤ 263169 }
        requires room { RoomFor (length self.old.marks.now) self.old }
        ensures room { RoomFor (length self.old.marks.now) self.new }
        ensures started { Started source within self.old self.new }
    {
        self.count = 0;
        self.source = source;
        self.within = within;
        self.bound = within;
        self.queue.clear();
        meet(
            self.marks,
            self.touched,
            &mut self.count,
            source,
            Mark {
                label: 0,
                way: Way::Right,
                waits: true,
            },
        );
        self.queue.push(0, source as u32);
    }

    // A cell that waits nearer than the bound: the one that the queue names, or any.
    #[inline(always)]
    fn choose(&mut self) -> Option<usize>
        requires room { self.old.count ≤ length self.old.touched.now }
        requires listed { (k : ℕ) → k < self.old.count → slice_index self.old.touched.now k <
            length self.old.marks.now }
        ensures unchanged { Unchanged self.old self.new }
        ensures cell { IfSome result (λ u. u < length self.new.marks.now) }
        ensures waits { IfSome result (λ u. open_of self.new.marks.now u ≡ true) }
        ensures near { IfSome result (λ u. label_of self.new.marks.now u <ℤ self.new.bound) }
        ensures none { IfNone result (NoneOpen self.old.marks.now self.old.touched.now
            self.old.count self.old.bound) }
    {
        match self.advised() {
            Some(u) => Some(u),
            None => self.left_out(),
        }
    }

    // Takes it in hand: it waits no more.
    #[inline(always)]
    fn next(&mut self) -> Option<usize>
        requires room { self.old.count ≤ length self.old.touched.now }
        requires listed { (k : ℕ) → k < self.old.count → slice_index self.old.touched.now k <
            length self.old.marks.now }
        ensures len { length self.new.marks.now ≡ length self.old.marks.now }
        ensures some { IfSome result (λ u. Chosen u self.old self.new) }
        ensures none { IfNone result (Idle self.old self.new) }
    {
        match self.choose() {
            Some(u) => {
                shut(self.marks, u);
                Some(u)
            }
            None => None,
        }
    }

    // Scans the next cell. Whether there was one.
    #[inline(always)]
    fn advance(&mut self, cells: &[Cell], costs: &[Costs], side: Side) -> bool
        requires fenced { Fenced cells.now costs.now side }
        requires feasible { Feasible (view cells.now costs.now side) }
        requires bounded { Bounded cells.now }
        requires room { RoomFor (length cells.now) self.old }
        requires going { Going (view cells.now costs.now side) 0 4 self.old }
        ensures room { RoomFor (length cells.now) self.new }
        ensures task { SameTask self.old self.new }
        ensures going { result ≡ true → Going (view cells.now costs.now side) 0 4 self.new }
        ensures effort { result ≡ true → effort_of self.new < effort_of self.old }
        ensures stopped { result ≡ false → Stopped (view cells.now costs.now side) self.new }
    {
        match self.next() {
            Some(u) => {
                self.scan(cells, costs, side, u);
                true
            }
            None => false,
        }
    }

    // The end that was met.
    #[inline(always)]
    fn found(&self) -> Option<usize>
        ensures target { IfSome result (λ t. t ≡ self.now.target) }
        ensures some { IfSome result (λ _. self.now.bound <ℤ self.now.within) }
        ensures none { IfNone result (self.now.within ≤ℤ self.now.bound) }
    {
        if self.bound < self.within {
            Some(self.target)
        } else {
            None
        }
    }

    // Searches from `source` for the nearest end, if there is one nearer than `within`.
    fn find(
        &mut self,
        cells: &[Cell],
        costs: &[Costs],
        side: Side,
        source: usize,
        within: i32,
    ) -> Option<usize>
        requires fenced { Fenced cells.now costs.now side }
        requires feasible { Feasible (view cells.now costs.now side) }
        requires bounded { Bounded cells.now }
        requires room { RoomFor (length cells.now) self.old }
        requires blank { Blank self.old.marks.now }
        requires cell { source < length cells.now }
        requires inner { inner_of cells.now source ≡ true }
        requires excess { pos 0 <ℤ excess_in cells.now side source }
        requires ahead { pos 0 ≤ℤ within }
        requires near { within ≤ℤ far }
        ensures room { RoomFor (length cells.now) self.new }
        ensures is_source { self.new.source ≡ source }
        ensures is_within { self.new.within ≡ within }
        ensures stopped { Stopped (view cells.now costs.now side) self.new }
        ensures target { IfSome result (λ t. t ≡ self.new.target) }
        ensures some { IfSome result (λ _. self.new.bound <ℤ self.new.within) }
        ensures none { IfNone result (self.new.within ≤ℤ self.new.bound) }
    {
        self.begin(source, within);
        while self.advance(cells, costs, side) {}
        self.found()
    }

    // Lowers the potential of the cell that stands at `k` of the list.
    #[inline(always)]
    fn lower_next(&mut self, cells: &mut [Cell], side: Side, k: usize, bound: i32)
        requires listed { k < length self.old.touched.now }
        requires cell { slice_index self.old.touched.now k < length cells.old }
        requires mark { slice_index self.old.touched.now k < length self.old.marks.now }
        requires potential { label_of self.old.marks.now (slice_index self.old.touched.now k) <ℤ
            bound →
            unsigned_abs (potential_of cells.old (slice_index self.old.touched.now k)) ≤ 2 ^ 28 }
        requires label { pos 0 ≤ℤ label_of self.old.marks.now (slice_index self.old.touched.now k) }
        requires limit { bound ≤ℤ far }
        ensures touched { self.new.touched.now ≡ self.old.touched.now }
        ensures len { length self.new.marks.now ≡ length self.old.marks.now }
        ensures fallen { FallenAt cells.old cells.new (slice_index self.old.touched.now k)
            (lowered side (label_of self.old.marks.now (slice_index self.old.touched.now k)) bound
            (potential_of cells.old (slice_index self.old.touched.now k))) }
        ensures forgotten { Forgotten self.old.marks.now self.new.marks.now
            (slice_index self.old.touched.now k) }
    {
        let v = self.touched[k] as usize;
        lower_one(cells, self.marks, v, side, bound);
    }

    // Lowers potentials by what the search found out, and forgets its labels.
    fn lower(&mut self, cells: &mut [Cell], side: Side)
        requires room { RoomFor (length cells.old) self.old }
        requires count { self.old.count ≤ length self.old.touched.now }
        requires listed { (k : ℕ) → k < self.old.count → slice_index self.old.touched.now k <
            length self.old.marks.now }
        requires bounded { Bounded cells.old }
        requires labels { (v : ℕ) → pos 0 ≤ℤ label_of self.old.marks.now v }
        requires limit { self.old.bound ≤ℤ far }
        ensures room { RoomFor (length cells.new) self.new }
        ensures fallen { Fallen self.old.touched.now self.old.count side self.old.bound cells.old
            cells.new self.old.marks.now self.new.marks.now }
    {
        let bound = self.bound;
        for k in 0..self.count {
            self.lower_next(cells, side, k, bound);
        }
    }

    /// Searches from `source`, which has something in excess, for the nearest end, a cell outside or one that lacks something, if there is
    /// one nearer than `within`; and lowers potentials by what it found out, also where there is none. From the end that it answers its marks
    /// lead back to `source`, by steps that cost just what the potential grows by. Afterwards no cell has a label.
    pub fn search(
        &mut self,
        cells: &mut [Cell],
        costs: &[Costs],
        side: Side,
        source: usize,
        within: i32,
    ) -> Option<usize>
        requires fenced { Fenced cells.old costs.now side }
        requires feasible { Feasible (view cells.old costs.now side) }
        requires room { RoomFor (length cells.old) self.old }
        requires blank { Blank self.old.marks.now }
        requires cell { source < length cells.old }
        requires inner { inner_of cells.old source ≡ true }
        requires excess { pos 0 <ℤ excess_in cells.old side source }
        requires ahead { pos 0 ≤ℤ within }
        requires near { within ≤ℤ far }
        ensures room { RoomFor (length cells.new) self.new }
        ensures blank { Blank self.new.marks.now }
        ensures kept { Kept cells.old cells.new }
        ensures feasible { Feasible (view cells.new costs.now side) }
        ensures cell { IfSome result (λ t. t < length cells.new) }
        ensures end { IfSome result (λ t. IsEnd (view cells.new costs.now side) t) }
        ensures led { IfSome result (λ t. Led (view cells.new costs.now side) self.new.marks.now
            source t) }
        ensures everywhere { IfNone result (within ≢ far) }
    {
        let found = self.find(cells, costs, side, source, within);
        self.lower(cells, side);
        found
    }
}
