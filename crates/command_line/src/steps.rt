//! The steps of a program, and the one way in which they follow each other.

ghost use Rattle.std.specs.Prelude.{◌≡◌, ◌⊎◌, ℕ, List, [], IfErr, IfOk, None, Some, is_some, true};
ghost use Rattle.std.specs.Borrow.{Bor};
ghost use Rattle.command_line.specs.About.{help_or_version, WritesHelp};
ghost use Rattle.command_line.specs.Endings.{Done, End, EndsBy, Fails, Tells};
ghost use Rattle.command_line.specs.Statuses.{BeforeOutput};
ghost use Rattle.command_line.specs.Steps.{EndsIn, EndsUnread, status_after};

use crate::VERSION;
use crate::about::write_help_or_version;
use crate::failure::{Failure, report};
use crate::messages::Messages;
use crate::options::{ReadError, report_bad_argument};
use std::alloc::Global;
use std::io::Write;

/// The notes that a program has once it is done. `()` is for programs that have none.
pub trait Notes: Drop {
    /// The text of all notes.
    ghost text: { Self → List ℕ };

    /// Writes all notes. An error of writing changes nothing else.
    fn tell<E: Write>(&self, alloc: Global, errors: &mut Messages<E>)
        ensures { Tells E.contents errors.old errors.new (text self.now) };
}

impl Notes for () {
    ghost text = { λ _. [] };

    fn tell<E: Write>(&self, _alloc: Global, _errors: &mut Messages<E>) {}
}

/// The texts of a program about itself.
#[derive(Clone, Copy)]
pub struct ProgramTexts {
    /// The name, for messages and `--version`.
    pub name: &'static str,
    /// The usage, for `--help`.
    pub usage: &'static str,
}

/// The steps of a program over its arguments and files: it reads the arguments, and runs.
///
/// `S` is the type of the files that it replaces, `I` of its input, and `O` of its output. A program that replaces no file
/// has `()` for `S`.
pub trait ProgramSteps<S, I, O> {
    /// The arguments as parsed.
    type Request: Drop;
    /// The notes of the program.
    type Told: Notes;

    /// The arguments.
    ghost args: { Self → List (Bor (List ℕ)) };

    /// A request is that of the arguments.
    ghost is_request: { Self → Self.Request → Type 0 };

    /// The program ends so, with the files that it replaces, its input and its output, each before and after.
    ghost ends: { Self → End → S → S → I → I → O → O → Type 0 };

    /// If the program ends with this status, it read nothing of its input.
    ghost leaves_input: { Self → ℕ → Type 0 };

    /// Returns the arguments.
    fn args(&self) -> &[&str]
        ensures { result.now ≡ args self.now };

    /// Reads the arguments. The error is the first that is refused, or says that memory was refused.
    fn request(&self, alloc: Global) -> Result<Self::Request, ReadError<'_>>
        ensures parsed { IfOk result (is_request self.now) }
        ensures refused { IfErr result (EndsUnread (ends self.now)) };

    /// Does what a request asks for, and returns the notes, or why it failed.
    fn run(
        &self,
        alloc: Global,
        request: Self::Request,
        store: &mut S,
        input: &mut I,
        output: &mut O,
    ) -> Result<Self::Told, Failure>
        requires { is_request self.now request }
        ensures done { IfOk result (λ notes. ends self.now (Done (Self.Told.text notes)) store.old store.new
            input.old input.new output.old output.new) }
        ensures failed { IfErr result (λ failure. ends self.now (Fails failure) store.old store.new
            input.old input.new output.old output.new) }
        ensures unread { leaves_input self.now (status_after result) → input.new ≡ input.old }
        ensures untouched { IfErr result (λ failure. (failure ≡ Failure.Output) ⊎ (output.new ≡ output.old)) };
}

// Does the steps of a program that was not asked for help, and returns the status to end with.
fn run_steps<P: ProgramSteps<S, I, O>, S, I, O, E: Write>(
    program: &P,
    name: &str,
    alloc: Global,
    store: &mut S,
    input: &mut I,
    output: &mut O,
    errors: &mut Messages<E>,
) -> u8
    ensures ended { EndsIn (EndsBy name.now result (Tells E.contents errors.old errors.new))
        (λ end. P.ends program.now end store.old store.new input.old input.new output.old output.new) }
    ensures unread { P.leaves_input program.now result → input.new ≡ input.old }
    ensures untouched { BeforeOutput result (output.new ≡ output.old) }
{
    let request = match program.request(alloc) {
        Ok(request) => request,
        Err(ReadError::Bad(bad)) => return report_bad_argument(alloc, name, &bad, errors),
        Err(ReadError::Memory) => return report(alloc, name, &Failure::Memory, errors),
    };
    match program.run(alloc, request, store, input, output) {
        Ok(notes) => {
            notes.tell(alloc, errors);
            0
        }
        Err(failure) => report(alloc, name, &failure, errors),
    }
}

/// Does what the arguments of a program ask for, and returns the status to end with.
///
/// If the only argument is `--help` or `--version`, it writes that text, and nothing else happens. Else it reads the
/// arguments, and runs the program if none is refused. It writes the message of the argument or the failure, or the notes.
pub fn answer<P: ProgramSteps<S, I, O>, S, I, O: Write, E: Write>(
    program: &P,
    texts: &ProgramTexts,
    alloc: Global,
    store: &mut S,
    input: &mut I,
    output: &mut O,
    errors: &mut Messages<E>,
) -> u8
    ensures help { WritesHelp texts.now.name.now VERSION.now texts.now.usage.now (P.args program.now) (Some result)
        O.contents output.old output.new }
    ensures ended { help_or_version texts.now.name.now VERSION.now texts.now.usage.now (P.args program.now) ≡ None →
        EndsIn (EndsBy texts.now.name.now result (Tells E.contents errors.old errors.new))
        (λ end. P.ends program.now end store.old store.new input.old input.new output.old output.new) }
    ensures quiet { is_some (help_or_version texts.now.name.now VERSION.now texts.now.usage.now (P.args program.now)) ≡ true →
        errors.new ≡ errors.old }
    ensures help_alone { is_some (help_or_version texts.now.name.now VERSION.now texts.now.usage.now (P.args program.now)) ≡ true →
        (store.new ≡ store.old) × (input.new ≡ input.old) }
    ensures unread { P.leaves_input program.now result → input.new ≡ input.old }
    ensures untouched { BeforeOutput result (output.new ≡ output.old) }
{
    if let Some(status) = write_help_or_version(texts.name, texts.usage, program.args(), output) {
        return status;
    }
    run_steps(program, texts.name, alloc, store, input, output, errors)
}
