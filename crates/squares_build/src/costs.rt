// What a unit more costs by each way out of a cell, before anything flows.
ghost use Rattle.std.specs.Prelude.{◌≡◌, ◌+◌, ◌-◌, ◌*◌, ◌<◌, ◌≤◌, length, pos};
ghost use Rattle.squares_build.specs.Cells.{CostsAt, CostsFor};

use crate::steps::Steps;
use net_cells::Costs;

impl Steps<'_, '_, '_, '_> {
    ghost use Rattle.squares_build.specs.Steps.{lent};

    // The price of the step from (x, y) to the right.
    #[inline(always)]
    fn price_right(&self, x: usize, y: usize) -> i16
        requires x { x < self.now.wide }
        requires y { y < self.now.high }
        ensures { result ≡ pos ((lent self.now).right x y) }
    {
        self.right[y * self.wide + x] as i16
    }

    // The same down.
    #[inline(always)]
    fn price_below(&self, x: usize, y: usize) -> i16
        requires x { x < self.now.wide }
        requires y { y < self.now.high }
        ensures { result ≡ pos ((lent self.now).below x y) }
    {
        self.below[y * self.wide + x] as i16
    }

    // The price of the step between the cell at (x, y) and the one at its right, where there is one.
    #[inline(always)]
    fn cost_right(&self, x: usize, y: usize) -> i16
        requires x { x ≤ self.now.wide }
        requires y { y ≤ self.now.high }
        ensures { x < self.now.wide → 0 < y → y < self.now.high →
            result ≡ pos ((lent self.now).below x (y - 1)) }
    {
        if x == self.wide || y == 0 || y == self.high {
            return 0;
        }
        self.price_below(x, y - 1)
    }

    // The one at its left.
    #[inline(always)]
    fn cost_left(&self, x: usize, y: usize) -> i16
        requires x { x ≤ self.now.wide }
        requires y { y ≤ self.now.high }
        ensures { 0 < x → 0 < y → y < self.now.high →
            result ≡ pos ((lent self.now).below (x - 1) (y - 1)) }
    {
        if x == 0 || y == 0 || y == self.high {
            return 0;
        }
        self.price_below(x - 1, y - 1)
    }

    // The one above.
    #[inline(always)]
    fn cost_up(&self, x: usize, y: usize) -> i16
        requires x { x ≤ self.now.wide }
        requires y { y ≤ self.now.high }
        ensures { 0 < x → x < self.now.wide → 0 < y →
            result ≡ pos ((lent self.now).right (x - 1) (y - 1)) }
    {
        if x == 0 || x == self.wide || y == 0 {
            return 0;
        }
        self.price_right(x - 1, y - 1)
    }

    // The one below.
    #[inline(always)]
    fn cost_down(&self, x: usize, y: usize) -> i16
        requires x { x ≤ self.now.wide }
        requires y { y ≤ self.now.high }
        ensures { 0 < x → x < self.now.wide → y < self.now.high →
            result ≡ pos ((lent self.now).right (x - 1) y) }
    {
        if x == 0 || x == self.wide || y == self.high {
            return 0;
        }
        self.price_right(x - 1, y)
    }

    // The costs by all ways out of the cell at (x, y).
    #[inline(always)]
    fn costs(&self, x: usize, y: usize) -> Costs
        requires x { x ≤ self.now.wide }
        requires y { y ≤ self.now.high }
        ensures { CostsAt (lent self.now) x y result }
    {
        Costs {
            right: self.cost_right(x, y),
            left: self.cost_left(x, y),
            up: self.cost_up(x, y),
            down: self.cost_down(x, y),
        }
    }

    /// Writes the costs by all ways out of cells, at both ends of each edge.
    pub fn fill_costs(&self, costs: &mut [Costs])
        requires { length costs.old ≡ (self.now.high + 1) * (self.now.wide + 1) }
        ensures { CostsFor (lent self.now) costs.new }
    {
        let stride = self.stride();
        for y in 0..self.high + 1 {
            for x in 0..stride {
                costs[y * stride + x] = self.costs(x, y);
            }
        }
    }
}
