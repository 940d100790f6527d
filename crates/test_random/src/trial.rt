// A drawn field of at most six places.
ghost use Rattle.std.specs.Prelude.{◌≡◌, ℕ, ◌<◌, ◌≤◌, take, length, IfSome, IfNone, slice_index};
ghost use Rattle.phase_field.specs.Field.{turns_in};
ghost use Rattle.phase_field.specs.Model.{field_of};
ghost use Rattle.phase_input.specs.Input.{field_lent, verdict, number};
ghost use Rattle.phase_cost.specs.Cost.{cost, Least};
ghost use Rattle.phase_cost.specs.Steps.{turn_steps};
ghost use Rattle.phase_turns.specs.Residue.{residue_count};

use crate::draw::{Draws, Prices};
use phase_field::field::Field;
use phase_input::input::Input;
use phase_input::take::take;
use phase_turns::residue::residue_count;
use phase_turns::steps::Steps;
use std::fmt;
use unwrap::{Done, put_back};

/// Lists of six, of which so many count as there are places.
#[derive(Drop)]
pub struct Trial {
    pub wide: u64,
    pub high: u64,
    pub turn: u32,
    pub places: usize,
    pub seen: [u32; 6],
    pub right: [u32; 6],
    pub below: [u32; 6],
    ghost some: { 1 ≤ places },
    ghost few: { places ≤ 6 },
    ghost turns: { 2 ≤ turn },
}

// What is seen at six places.
fn draw_seen(draws: &mut Draws, turn: u32) -> [u32; 6]
    requires { 2 ≤ turn }
    ensures { (k : ℕ) → k < 6 → slice_index result k < turn }
{
    let mut seen = [0; 6];
    for number in seen.iter_mut() {
        *number = draws.below(turn);
    }
    seen
}

// How many squares of a field have a residue.
fn residues(field: &Field) -> usize
    ensures { result ≡ residue_count (turn_steps (field_of field.now)) }
{
    residue_count(field, &Steps::expected(field))
}

impl Trial {
    ghost use Rattle.unwrap.specs.declared.Done.TheVariants as done;
    ghost use Rattle.test_random.specs.Drawn.{IsDrawn, Lends, IsRefused, SaysResidue, input_drawn};

    // Draws a field. Its places fit a usize, being six at most.
    fn draw_once(draws: &mut Draws, prices: Prices) -> Trial
        ensures { IsDrawn result }
    {
        let (wide, high) = draws.size();
        let turn = draws.turn();
        Trial {
            wide,
            high,
            turn,
            places: (wide * high) as usize,
            seen: draw_seen(draws, turn),
            right: prices.draw_six(draws),
            below: prices.draw_six(draws),
        }
    }

    /// Draws a field, and what is seen in it again up to nine times until some square has a residue.
    pub fn draw(draws: &mut Draws, prices: Prices) -> Trial
        ensures { IsDrawn result }
    {
        let mut trial = Trial::draw_once(draws, prices);
        for _ in 0..9 {
            if trial.has_residue() {
                return trial;
            }
            trial.see_again(draws);
        }
        trial
    }

    // Draws what is seen anew.
    fn see_again(&mut self, draws: &mut Draws)
        ensures seen { (k : ℕ) → k < 6 → slice_index self.new.seen k < self.old.turn }
        ensures wide { self.new.wide ≡ self.old.wide }
        ensures high { self.new.high ≡ self.old.high }
        ensures turn { self.new.turn ≡ self.old.turn }
        ensures places { self.new.places ≡ self.old.places }
        ensures right { self.new.right ≡ self.old.right }
        ensures below { self.new.below ≡ self.old.below }
    {
        self.seen = draw_seen(draws, self.turn);
    }

    /// The field as it is lent.
    pub fn lent(&self) -> Input<'_, '_, '_>
        ensures wide { result.wide ≡ self.now.wide }
        ensures high { result.high ≡ self.now.high }
        ensures turn { result.turn ≡ self.now.turn }
        ensures seen { result.seen.now ≡ take self.now.places self.now.seen }
        ensures right { result.right.now ≡ take self.now.places self.now.right }
        ensures below { result.below.now ≡ take self.now.places self.now.below }
    {
        Input {
            wide: self.wide,
            high: self.high,
            turn: u64::from(self.turn),
            seen: &self.seen[0..self.places],
            right: &self.right[0..self.places],
            below: &self.below[0..self.places],
        }
    }

    /// The field that it lends, if it is one.
    pub fn field(&self) -> Option<Field>
        ensures some { IfSome result (Lends self.now) }
        ensures none { IfNone result (IsRefused self.now) }
    {
        take(&self.lent(), self.places as u64).ok()
    }

    /// Whether some square has a residue.
    pub fn has_residue(&self) -> bool
        ensures { SaysResidue self.now result }
    {
        self.field().is_some_and(|field| residues(&field) > 0)
    }

    /// What putting turns back into it answers.
    pub fn put_back(&self, room: &mut [i64]) -> Done
        ensures refused { let i = input_drawn self.now (length room.old) in
            IfSome (verdict i) (λ why. result ≡ done.Refused (number why)) }
        ensures same { let i = input_drawn self.now (length room.old) in
            IfSome (verdict i) (λ _. room.new ≡ room.old) }
        ensures kept { length room.new ≡ length room.old }
        ensures back { let i = input_drawn self.now (length room.old) in
            IfNone (verdict i)
            (result ≡ done.Back (cost (field_lent i) (turns_in i.wide room.new))) }
        ensures least { let i = input_drawn self.now (length room.old) in
            IfNone (verdict i) (Least (field_lent i) (turns_in i.wide room.new)) }
    {
        let lent = self.lent();
        put_back(
            lent.wide, lent.high, lent.turn, lent.seen, lent.right, lent.below, room,
        )
    }
}

impl fmt::Display for Trial {
    fn fmt<W: fmt::Write>(&self, f: &mut fmt::Formatter<W>) -> fmt::Result {
        let Input {
            wide,
            high,
            turn,
            seen,
            right,
            below,
        } = self.lent();
        write!(
            f,
            "{wide} by {high}, turn {turn}, seen {seen:?}, right {right:?}, below {below:?}"
        )
    }
}
