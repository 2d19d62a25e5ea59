//! The messages of a program, and whether all of them were written.

ghost use Rattle.std.specs.Prelude.{◌≡◌, [], IfSome, true};
ghost use Rattle.command_line.specs.Endings.{Tells, TellsMore};

use crate::write_whole;
use std::alloc::Global;
use std::fmt::Display;
use std::io::Write;

/// The messages of a program, which go to a writer. They are whole until one of them can't be written.
///
/// ```text
/// let mut errors = Messages::new(rt.stderr());
/// errors.write(alloc, &format_args!("{path}: {cause}\n"));
/// ```
#[derive(Drop)]
pub struct Messages<W: Write> {
    writer: W,
    is_whole: bool,
}

impl<W: Write> Messages<W> {
    /// Makes a writer of messages, with none yet.
    pub fn new(writer: W) -> Messages<W>
        ensures writer { result.writer ≡ writer }
        ensures whole { result.is_whole ≡ true }
    {
        Messages {
            writer,
            is_whole: true,
        }
    }

    // Writes a message, and keeps whether that could be done.
    fn push<D: Display>(&mut self, alloc: Global, message: &D)
        ensures { IfSome (D.output message.now) (Tells W.contents self.old self.new) }
    {
        let written = write_whole(alloc, message, &mut self.writer);
        self.is_whole = self.is_whole && written.is_ok();
    }

    /// Writes a message at once, or, if memory for that is refused, in pieces. After an error of writing the messages are
    /// no longer whole, and nothing else changes.
    #[tactic(auto, using(crate::proofs::Telling::tells_more_if))]
    pub fn write<D: Display>(&mut self, alloc: Global, message: &D)
        ensures told { IfSome (D.output message.now) (Tells W.contents self.old self.new) }
        ensures after { IfSome (D.output message.now) (TellsMore W.contents self.old self.new) }
    {
        self.push(alloc, message);
    }

    /// Reports whether each message was written.
    pub fn is_whole(&self) -> bool
        ensures { result ≡ self.now.is_whole }
    {
        self.is_whole
    }

    /// Returns the writer.
    pub fn into_writer(self) -> W
        ensures { result ≡ self.writer }
    {
        self.writer
    }
}

/// Returns the status of a program that is done and has nothing to say, which is 0.
pub fn done<W: Write>(_errors: &Messages<W>) -> u8
    ensures { (result ≡ 0) × Tells W.contents _errors.now _errors.now [] }
{
    0
}
