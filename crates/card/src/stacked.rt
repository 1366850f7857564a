//! What the stack of four says: of records by themselves, and of a release routine as it goes along.
use crate::asked::{Asked, all_asked, routine};
use associations::associations::Associations;
use house::stack::{HouseStack, Opinions, hear, house_stack};
use labels::compartments::Compartments;
use policy::interface::Policy;
use policy::record::Record;
use policy::words::Verdict;
use std::io;

const HEADS: &str = "control    information  triples    labels     stack        leaf  ";

/// Prints what each policy and the stack say of thirteen records.
pub(crate) fn print_asked(rt: &HostRuntime, chains: &Associations) -> io::Result<()> {
    println!(rt;
        "The stack of functional control (leaf 3), security information (4), triples (2) and labels over compartments (1)"
    )?;
    println!(rt; "{HEADS}the first record, then what is other in each")?;
    let stack = house_stack(Compartments, chains);
    for asked in all_asked() {
        print_one(rt, &stack, asked)?;
    }
    Ok(())
}

fn print_one(rt: &HostRuntime, stack: &HouseStack<Compartments>, asked: Asked) -> io::Result<()> {
    let Asked { access, what } = asked;
    print_heard(rt, stack, &access)?;
    println!(rt; "{what}")
}

/// Prints a run of the release routine: what is granted is noted, what is refused is not.
pub(crate) fn print_routine(rt: &HostRuntime, chains: &Associations) -> io::Result<()> {
    println!(rt;
        "A release routine, object 10, whose rows list items {{1, 2}}, {{1, 3}} and {{2, 3}}"
    )?;
    println!(rt; "{HEADS}what it does")?;
    let mut stack = house_stack(Compartments, chains);
    for step in routine() {
        print_step(rt, &mut stack, step)?;
    }
    Ok(())
}

fn print_step(
    rt: &HostRuntime,
    stack: &mut HouseStack<Compartments>,
    step: Asked,
) -> io::Result<()> {
    let Asked { access, what } = step;
    if print_heard(rt, stack, &access)?.grants() {
        stack.note(&access);
        println!(rt; "{what}: granted, and noted")
    } else {
        println!(rt; "{what}: refused")
    }
}

/// Prints the columns of verdicts, and gives that of the stack.
fn print_heard(
    rt: &HostRuntime,
    stack: &HouseStack<Compartments>,
    access: &Record,
) -> io::Result<Verdict> {
    let Opinions {
        control,
        information,
        triples,
        labels,
        joined,
        named,
    } = hear(stack, access);
    let number = u8::from(joined);
    print!(rt; "{control:<9}  {information:<11}  ")?;
    print!(rt; "{triples:<9}  {labels:<9}  ")?;
    print!(rt; "{number} {joined:<9}  {named:>4}  ")?;
    Ok(joined)
}
