// What carries a script out, and how it prints.
use crate::declines::Fault;
use crate::mistakes::Mistake;
use crate::numbers::Number;
use crate::replies::Reply;
use crate::rows::LONGEST;
use crate::tallies::Tally;
use std::alloc::AllocError;
use std::io;

// The program's runtime, what the script came to so far, and the length of the register row at the next `open`.
#[derive(Drop)]
pub struct Runner<'r> {
    pub rt: &'r HostRuntime,
    pub tally: Tally,
    pub room: usize,
}

impl<'r> Runner<'r> {
    pub(crate) fn new(rt: &'r HostRuntime) -> Runner<'r> {
        Runner {
            rt,
            tally: Tally::new(rt.alloc()),
            room: LONGEST,
        }
    }

    pub(crate) fn print_mistake(&self, line: usize, mistake: Mistake) -> io::Result<()> {
        println!(self.rt; "error line {line}: {mistake}")
    }

    // Prints the answer to a call, and counts the call.
    pub(crate) fn print_reply<K: Number>(
        &mut self,
        reply: Result<Reply<K>, Fault>,
    ) -> io::Result<()> {
        match reply {
            Ok(reply) => {
                self.tally.count_call(false);
                println!(self.rt; "{reply}")
            }
            Err(Fault::Declined(decline)) => {
                self.tally.count_call(true);
                println!(self.rt; "{decline}")
            }
            Err(Fault::Memory) => Err(io::Error::from(AllocError)),
        }
    }
}
