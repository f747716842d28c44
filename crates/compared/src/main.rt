// Runs, through the proved reader, the readings that document 01 gives and others that are easy to get wrong. Prints what was expected of each
// and what was found, and a last line that counts them.
#![tactic(auto)]

mod case_a;
mod compare;
mod easily_wrong;
mod readings;
mod records;
mod tables;

use compare::Tally;

fn main(rt: HostRuntime) {
    let mut tally = Tally::new(&rt);
    case_a::turns(&mut tally);
    case_a::others(&mut tally);
    readings::eithers(&mut tally);
    readings::sequences(&mut tally);
    readings::numbers(&mut tally);
    readings::missing(&mut tally);
    readings::refusals(&mut tally);
    easily_wrong::abandoned(&mut tally);
    easily_wrong::one_from_each_side(&mut tally);
    easily_wrong::whole_round(&mut tally);
    easily_wrong::binds(&mut tally);
    tables::rooms(&mut tally);
    tables::unequal(&mut tally);
    tables::inputs(&mut tally);
    tables::refusals(&mut tally);
    tally.count();
}
