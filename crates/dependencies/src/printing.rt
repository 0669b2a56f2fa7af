// Dependency patterns, printed and compared.
use crate::patterns::Dependence;
use replay::Reply;
use std::io;

fn print_pattern(rt: &HostRuntime, entries: &[Dependence]) -> io::Result<()> {
    if !entries.iter().any(|entry| entry.0) {
        return println!(rt; "depends on no control");
    }
    print!(rt; "depends on controls")?;
    for (i, entry) in entries.iter().enumerate() {
        if entry.0 {
            print!(rt; " {i}")?;
        }
    }
    println!(rt; "")
}

pub fn print_reply(
    rt: &HostRuntime,
    party: &str,
    register: usize,
    reply: &Reply<Dependence>,
) -> io::Result<()> {
    print!(rt; "  {party}: register {register} ")?;
    match reply {
        Reply::Gradient(_, entries, _) => print_pattern(rt, entries),
        Reply::Declined(refusal) => {
            let number = refusal.number();
            println!(rt; "refused {number}")
        }
        _ => println!(rt; "no pattern"),
    }
}

// The same pattern, or the same refusal.
pub fn print_agreement(
    rt: &HostRuntime,
    one: &Reply<Dependence>,
    other: &Reply<Dependence>,
) -> io::Result<()> {
    if one == other {
        println!(rt; "  they agree")
    } else {
        println!(rt; "  they differ")
    }
}
