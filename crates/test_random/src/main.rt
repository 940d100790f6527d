// Turns put back into drawn fields, held to what trying all turns gives.
#![tactic(auto)]

ghost use Rattle.std.specs.Prelude.{◌+◌, ◌-◌, ◌≤◌, ◌↔◌, IsTrue};
ghost use Rattle.test_random.specs.Left.{RefusesRoom};
ghost use Rattle.test_random.specs.Agreed.{Agreed, AgreesOnce, Costs, AllCost};
ghost use Rattle.test_random.specs.Drawn.{SaysResidue};

mod counts;
mod draw;
mod room;
mod trial;

use brute_force::agrees;
use counts::{Counts, Outcome};
use draw::{Draws, Prices};
use room::left_alone;
use std::io;
use trial::Trial;
use unwrap::Done;

// What no turns for so few places are.
const MARK: i64 = 77;

// How many fields are tried with prices of each kind.
const FIELDS: u32 = 100;

// Whether something is put back, and costs more than nothing.
fn costs(done: Done) -> bool
    ensures { IsTrue result ↔ Costs done }
{
    matches!(done, Done::Back(1..))
}

// Whether turns are put back into a field, and trying agrees with what is answered of them.
fn back_agrees(trial: &Trial, done: Done, turns: &[i64]) -> bool
    ensures { IsTrue result → Agreed trial.now done turns.now }
{
    match (done, trial.field()) {
        (Done::Back(cost), Some(field)) => agrees(&field, turns, cost),
        _ => false,
    }
}

// Whether a room of so many numbers is turned away.
fn room_refused(trial: &Trial, long: usize) -> bool
    requires { long ≤ 7 }
    ensures { IsTrue result → RefusesRoom trial.now long }
{
    let mut room = [MARK; 7];
    let turns = &mut room[0..long];
    let done = trial.put_back(turns);
    left_alone(done, turns, MARK)
}

// Whether rooms of a number less and of a number more than there are places are turned away.
fn rooms_refused(trial: &Trial) -> bool
    ensures fewer { IsTrue result → RefusesRoom trial.now (trial.now.places - 1) }
    ensures more { IsTrue result → RefusesRoom trial.now (trial.now.places + 1) }
{
    room_refused(trial, trial.places - 1) && room_refused(trial, trial.places + 1)
}

// Puts turns back into a field, and holds what is answered to what trying gives.
fn try_field(trial: &Trial) -> Outcome
    ensures residues { SaysResidue trial.now result.residues }
    ensures costly { IsTrue result.costly ↔ AllCost trial.now }
    ensures agreed { IsTrue result.agreed → AgreesOnce trial.now }
    ensures fewer { IsTrue result.refused → RefusesRoom trial.now (trial.now.places - 1) }
    ensures more { IsTrue result.refused → RefusesRoom trial.now (trial.now.places + 1) }
{
    let mut room = [MARK; 6];
    let turns = &mut room[0..trial.places];
    let done = trial.put_back(turns);
    Outcome {
        residues: trial.has_residue(),
        costly: costs(done),
        agreed: back_agrees(trial, done, turns),
        refused: rooms_refused(trial),
    }
}

// Tries fields with prices of one kind, and prints each in which something is not as it should be.
fn try_prices(rt: &HostRuntime, draws: &mut Draws, prices: Prices) -> io::Result<Counts> {
    let mut counts = Counts::default();
    // So many times.
    for _ in 0..FIELDS {
        let trial = Trial::draw(draws, prices);
        let outcome = try_field(&trial);
        if !outcome.agreed || !outcome.refused {
            println!(rt; "disagrees: {trial}")?;
        }
        counts.add(outcome);
    }
    Ok(counts)
}

fn main(rt: HostRuntime) -> io::Result<()> {
    let mut draws = Draws { state: 20240229 };
    let mut total = Counts::default();
    for prices in [Prices::One, Prices::Few, Prices::Any, Prices::MostlyNone] {
        let counts = try_prices(&rt, &mut draws, prices)?;
        println!(rt; "prices {prices}: {counts}")?;
        total.add_all(&counts);
    }
    println!(rt; "{total}")
}
