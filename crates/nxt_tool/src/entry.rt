ghost use Rattle.std.specs.Prelude.{◌≡◌, ◌⊎◌, ◌↔◌, ℕ, ◌≤◌, List, [], Option, Some, None, length, IfOk, MatchResult};
ghost use Rattle.std.specs.Io.KnownBytes.{IsAtEnd};
ghost use Rattle.nxt_edge.specs.Edge.{Rose, AreBytes};
ghost use Rattle.nxt_tool.specs.Due.{Answer, Ended, Meets, read_status, fault_status, assembled_answer, refused_answer, described_answer, Runs, Describes, Assembles, Generated, Due, UsesProgram, ReadsScript, UsesScript, Accepts, Images, MayReadScript, MayWriteImage, Answers, IsQuiet, NotRefused};
ghost use Rattle.nxt_report.specs.Cut.{CutText};
ghost use Rattle.nxt_model.specs.Compaction.{CompactionChangesDumpsAlone};
ghost use Rattle.nxt_script.specs.Rows.{rows as rows_of};
ghost use Rattle.nxt_tool.specs.Cut.{CutRun};
ghost use Rattle.nxt_tool.specs.Words.{command_of, texts_of};
ghost use Rattle.nxt_tool.specs.declared.words.Command.{Command};
ghost use Rattle.nxt_tool.specs.declared.words.Command.TheVariants.{Run};
ghost use Rattle.nxt_tool.specs.declared.words.Language.{Language as ProgramLanguage};
ghost use Rattle.nxt_tool.specs.Programs.{HasProgramCause, IsProgramOf};
ghost use Rattle.nxt_model.specs.Image.{program_of};
ghost use Rattle.nxt_model.specs.Program.{start};

use crate::accepting::{accept, describe, refusal_line};
use crate::assembling::{ImageFile, assemble_text, machine_of_text};
use crate::fault::{AcceptFault, Refusal};
use crate::generating::generate;
use crate::words::{Command, Description, Language, form_of};
use nxt_edge::{ReadAllFault, Sink, Source, read_all};
use nxt_machine::Machine;
use nxt_report::{Fault, Status, put, run_script};
use nxt_types::NoMemory;
use std::alloc::Global;

const MOST_PROGRAM: usize = 262_144;

fn of_read(fault: ReadAllFault) -> Status
    ensures { result ≡ read_status fault }
{
    match fault {
        ReadAllFault::Failed => Status::ReadFault,
        ReadAllFault::TooLarge => Status::TooLarge,
        ReadAllFault::NoMemory => Status::NoMemory,
    }
}

fn of_fault(fault: Fault) -> Status
    ensures { result ≡ fault_status fault }
{
    match fault {
        Fault::Read => Status::ReadFault,
        Fault::Write => Status::WriteFault,
        Fault::NoMemory => Status::NoMemory,
    }
}

// Runs a script on a machine, and reports.
fn run_program<Q: Source, R: Sink>(
    alloc: Global,
    machine: Machine,
    script: &mut Q,
    report: &mut R,
) -> Status
    ensures told { (s : List ℕ) → Q.left script.old ≡ Some s → Ended machine (rows_of s) result (R.written report.old) (R.written report.new) }
    ensures cut { (s : List ℕ) → Q.left script.old ≡ Some s → result ≡ Status.ReadFault → CutText machine s (Q.left script.old) (Q.left script.new) (R.written report.old) (R.written report.new) }
    ensures read { result ≡ Status.ReadFault → Rose (Q.faults script.old) (Q.faults script.new) }
    ensures write { result ≡ Status.WriteFault → Rose (R.faults report.old) (R.faults report.new) }
    ensures script { Q.faults script.old ≤ Q.faults script.new }
    ensures report { R.faults report.old ≤ R.faults report.new }
    ensures accepted { NotRefused result }
    ensures done { result ≡ Status.Done → IsAtEnd (Q.left script.new) }
{
    let mut machine = machine;
    match run_script(alloc, &mut machine, script, report) {
        Ok(status) => status,
        Err(fault) => of_fault(fault),
    }
}

// Writes the line of a refused program.
fn refuse<R: Sink>(alloc: Global, refusal: Refusal, report: &mut R) -> Status
    ensures told { Meets result (refused_answer refusal) (R.written report.old) (R.written report.new) }
    ensures refused { result ≡ Status.Done → ⊥ }
    ensures write { result ≡ Status.WriteFault → Rose (R.faults report.old) (R.faults report.new) }
    ensures report { R.faults report.old ≤ R.faults report.new }
    ensures only { (result ≡ Status.ReadFault → ⊥) × (result ≡ Status.Words → ⊥) }
{
    let Ok(line) = refusal_line(alloc, refusal) else {
        return Status::NoMemory;
    };
    match put(report, line.as_slice()) {
        Ok(()) => Status::Refused,
        Err(fault) => of_fault(fault),
    }
}

// The machine of a program at its start, or why there is none.
fn machine_of_program(
    alloc: Global,
    language: Language,
    bytes: &[u8],
    effort: u8,
) -> Result<Machine, AcceptFault>
    requires { length bytes.now ≤ 16777216 }
    ensures start { IfOk result (λ m. m.state ≡ start (program_of m.image)) }
    ensures effort { IfOk result (λ m. m.effort ≡ effort) }
    ensures accepted { MatchResult result (λ m. IsProgramOf language bytes.now m.image) (HasProgramCause language bytes.now) }
{
    match language {
        Language::Rxe => accept(alloc, bytes, effort),
        Language::Nbc => machine_of_text(alloc, bytes, effort),
    }
}

// Runs a script over a program.
fn run<P: Source, Q: Source, R: Sink>(
    alloc: Global,
    language: Language,
    effort: u8,
    program: &mut P,
    script: &mut Q,
    report: &mut R,
) -> Status
    ensures told { (b s : List ℕ) → AreBytes b → P.left program.old ≡ Some b → (ReadsScript (Run language effort) b → Q.left script.old ≡ Some s) → (a : Answer) × Runs language effort b s a × Meets result a (R.written report.old) (R.written report.new) }
    ensures cut { (b s : List ℕ) → P.left program.old ≡ Some b → ReadsScript (Run language effort) b → Q.left script.old ≡ Some s → result ≡ Status.ReadFault → CutRun (Run language effort) b s (Q.left script.old) (Q.left script.new) (R.written report.old) (R.written report.new) }
    ensures read { result ≡ Status.ReadFault → Rose (P.faults program.old) (P.faults program.new) ⊎ (Accepts (Run language effort) (P.left program.old) × Rose (Q.faults script.old) (Q.faults script.new)) }
    ensures write { result ≡ Status.WriteFault → Rose (R.faults report.old) (R.faults report.new) }
    ensures unread { (Accepts (Run language effort) (P.left program.old) → ⊥) → script.new ≡ script.old }
    ensures done { result ≡ Status.Done → IsAtEnd (Q.left script.new) }
    ensures words { result ≡ Status.Words → ⊥ }
    ensures later { (P.faults program.old ≤ P.faults program.new) × (Q.faults script.old ≤ Q.faults script.new) × (R.faults report.old ≤ R.faults report.new) }
{
    let bytes = match read_all(alloc, program, MOST_PROGRAM) {
        Ok(bytes) => bytes,
        Err(fault) => return of_read(fault),
    };
    match machine_of_program(alloc, language, bytes.as_slice(), effort) {
        Ok(machine) => run_program(alloc, machine, script, report),
        Err(AcceptFault::NoMemory) => Status::NoMemory,
        Err(AcceptFault::Refused(refusal)) => refuse(alloc, refusal, report),
    }
}

// Writes what is told of an accepted program.
fn tell<R: Sink>(text: &[u8], report: &mut R) -> Status
    ensures told { Meets result (described_answer text.now) (R.written report.old) (R.written report.new) }
    ensures write { result ≡ Status.WriteFault → Rose (R.faults report.old) (R.faults report.new) }
    ensures report { R.faults report.old ≤ R.faults report.new }
    ensures only { (result ≡ Status.ReadFault → ⊥) × (result ≡ Status.Words → ⊥) }
{
    match put(report, text) {
        Ok(()) => Status::Done,
        Err(fault) => of_fault(fault),
    }
}

// Judges a program file, and tells of it.
fn describe_file<P: Source, R: Sink>(
    alloc: Global,
    description: Description,
    program: &mut P,
    report: &mut R,
) -> Status
    ensures told { (b : List ℕ) → AreBytes b → P.left program.old ≡ Some b → (a : Answer) × Describes description b a × Meets result a (R.written report.old) (R.written report.new) }
    ensures read { result ≡ Status.ReadFault → Rose (P.faults program.old) (P.faults program.new) }
    ensures write { result ≡ Status.WriteFault → Rose (R.faults report.old) (R.faults report.new) }
    ensures words { result ≡ Status.Words → ⊥ }
    ensures later { (P.faults program.old ≤ P.faults program.new) × (R.faults report.old ≤ R.faults report.new) }
{
    let bytes = match read_all(alloc, program, MOST_PROGRAM) {
        Ok(bytes) => bytes,
        Err(fault) => return of_read(fault),
    };
    match describe(alloc, description, bytes.as_slice()) {
        Ok(text) => tell(text.as_slice(), report),
        Err(AcceptFault::NoMemory) => Status::NoMemory,
        Err(AcceptFault::Refused(refusal)) => refuse(alloc, refusal, report),
    }
}

// Writes an image, and then what is told of it.
fn write_image<I: Sink, R: Sink>(made: &ImageFile, image: &mut I, report: &mut R) -> Status
    ensures told { Answers result (assembled_answer made.now.file made.now.line) (I.written image.old) (I.written image.new) (R.written report.old) (R.written report.new) }
    ensures write { result ≡ Status.WriteFault → Rose (R.faults report.old) (R.faults report.new) ⊎ Rose (I.faults image.old) (I.faults image.new) }
    ensures later { (I.faults image.old ≤ I.faults image.new) × (R.faults report.old ≤ R.faults report.new) }
    ensures only { (result ≡ Status.ReadFault → ⊥) × (result ≡ Status.Words → ⊥) }
{
    match put(image, made.file.as_slice()) {
        Ok(()) => tell(made.line.as_slice(), report),
        Err(fault) => of_fault(fault),
    }
}

// Assembles a text to an image.
fn assemble_file<P: Source, I: Sink, R: Sink>(
    alloc: Global,
    program: &mut P,
    image: &mut I,
    report: &mut R,
) -> Status
    ensures told { (b : List ℕ) → AreBytes b → P.left program.old ≡ Some b → (a : Answer) × Assembles b a × Answers result a (I.written image.old) (I.written image.new) (R.written report.old) (R.written report.new) }
    ensures read { result ≡ Status.ReadFault → Rose (P.faults program.old) (P.faults program.new) }
    ensures write { result ≡ Status.WriteFault → Rose (R.faults report.old) (R.faults report.new) ⊎ (Images (P.left program.old) × Rose (I.faults image.old) (I.faults image.new)) }
    ensures unwritten { (Images (P.left program.old) → ⊥) → image.new ≡ image.old }
    ensures words { result ≡ Status.Words → ⊥ }
    ensures later { (P.faults program.old ≤ P.faults program.new) × (I.faults image.old ≤ I.faults image.new) × (R.faults report.old ≤ R.faults report.new) }
{
    let bytes = match read_all(alloc, program, MOST_PROGRAM) {
        Ok(bytes) => bytes,
        Err(fault) => return of_read(fault),
    };
    match assemble_text(alloc, bytes.as_slice()) {
        Ok(made) => write_image(&made, image, report),
        Err(AcceptFault::NoMemory) => Status::NoMemory,
        Err(AcceptFault::Refused(refusal)) => refuse(alloc, refusal, report),
    }
}

// Runs a generated program, and tells of it.
fn tell_generated<R: Sink>(alloc: Global, number: u32, report: &mut R) -> Status
    ensures told { (a : Answer) × Generated number a × Meets result a (R.written report.old) (R.written report.new) }
    ensures write { result ≡ Status.WriteFault → Rose (R.faults report.old) (R.faults report.new) }
    ensures report { R.faults report.old ≤ R.faults report.new }
    ensures only { (result ≡ Status.ReadFault → ⊥) × (result ≡ Status.Words → ⊥) }
{
    match generate(alloc, number) {
        Ok(text) => tell(text.as_slice(), report),
        Err(NoMemory) => Status::NoMemory,
    }
}

fn answer<P: Source, Q: Source, I: Sink, R: Sink>(
    alloc: Global,
    words: &[Vec<u8>],
    program: &mut P,
    script: &mut Q,
    image: &mut I,
    report: &mut R,
) -> Status
    ensures told { (b s : List ℕ) → AreBytes b → (UsesProgram (texts_of words.now) → P.left program.old ≡ Some b)
        → (UsesScript (texts_of words.now) b → Q.left script.old ≡ Some s)
        → (a : Answer) × Due (texts_of words.now) b s a × Answers result a (I.written image.old) (I.written image.new) (R.written report.old) (R.written report.new) }
    ensures cut { (b s : List ℕ) → P.left program.old ≡ Some b → UsesScript (texts_of words.now) b → Q.left script.old ≡ Some s → result ≡ Status.ReadFault
        → (c : Command) × (command_of (texts_of words.now) ≡ Some c) × CutRun c b s (Q.left script.old) (Q.left script.new) (R.written report.old) (R.written report.new) }
    ensures done { (l : ProgramLanguage) (effort : ℕ) → command_of (texts_of words.now) ≡ Some (Run l effort) → result ≡ Status.Done → IsAtEnd (Q.left script.new) }
    ensures words { (result ≡ Status.Words) ↔ (command_of (texts_of words.now) ≡ None) }
    ensures read { result ≡ Status.ReadFault → Rose (P.faults program.old) (P.faults program.new) ⊎ (MayReadScript (texts_of words.now) (P.left program.old) × Rose (Q.faults script.old) (Q.faults script.new)) }
    ensures write { result ≡ Status.WriteFault → Rose (R.faults report.old) (R.faults report.new) ⊎ (MayWriteImage (texts_of words.now) (P.left program.old) × Rose (I.faults image.old) (I.faults image.new)) }
    ensures no_form { command_of (texts_of words.now) ≡ None → (program.new ≡ program.old) × (report.new ≡ report.old) }
    ensures program { (UsesProgram (texts_of words.now) → ⊥) → program.new ≡ program.old }
    ensures script { (MayReadScript (texts_of words.now) (P.left program.old) → ⊥) → script.new ≡ script.old }
    ensures image { (MayWriteImage (texts_of words.now) (P.left program.old) → ⊥) → image.new ≡ image.old }
    ensures later { (P.faults program.old ≤ P.faults program.new) × (Q.faults script.old ≤ Q.faults script.new) × (I.faults image.old ≤ I.faults image.new) × (R.faults report.old ≤ R.faults report.new) }
{
    match form_of(words) {
        Some(Command::Run(language, effort)) => {
            run(alloc, language, effort, program, script, report)
        }
        Some(Command::Assemble) => assemble_file(alloc, program, image, report),
        Some(Command::Describe(description)) => {
            describe_file(alloc, description, program, report)
        }
        Some(Command::Generate(number)) => tell_generated(alloc, number, report),
        None => Status::Words,
    }
}

/// Does what the words say, and answers how it ended. `words` are those of the command without the program's own name.
///
/// `run rxe FILE SCRIPT` runs the rows of the script on the image that the program holds, and writes the report.
/// `run nbc FILE SCRIPT` does the same on the text that the program holds, or writes the first rule that the text breaks.
/// With `--effort K` behind `run`, K from 0 to 255, up to K blocks of the pool settle at the end of each turn.
/// `asm FILE IMAGE` writes the image of the text that the program holds to `image`, and then the bytes of its file and of the
/// pool at the start, or the first rule that the text breaks.
/// `check FILE` writes whether the program's image is accepted, and with what footprint, or the first rule that it breaks.
/// `list FILE` writes the image as text, line by line, or the first rule that it breaks.
/// `gen NUMBER` makes a program and a script from the number, runs them, and writes how many lines of motors there were, the
/// sum of their powers, and how the program stopped.
/// Other words have no form: nothing is read or written.
pub fn nxt<P: Source, Q: Source, I: Sink, R: Sink>(
    alloc: Global,
    words: &[Vec<u8>],
    program: &mut P,
    script: &mut Q,
    image: &mut I,
    report: &mut R,
) -> Status
    // The headline. Let the sources that are used tell their bytes. With a status that is no fault, it and the texts
    // appended are the due ones; after a fault or want of memory each text appended is a prefix of a due one. Nothing is
    // reported of an image before it is whole.
    ensures told { (b s : List ℕ) → AreBytes b → (UsesProgram (texts_of words.now) → P.left program.old ≡ Some b)
        → (UsesScript (texts_of words.now) b → Q.left script.old ≡ Some s)
        → (a : Answer) × Due (texts_of words.now) b s a × Answers result a (I.written image.old) (I.written image.new) (R.written report.old) (R.written report.new) }

    // Compaction between any two bytecodes changes nothing but dumps: of events that differ in compactions alone, and with any
    // two efforts, the reports that are due differ in dumps alone, and the program stops alike.
    ensures compaction { CompactionChangesDumpsAlone }

    // Where no fault came, the due status is given, or there was no memory.
    ensures complete { (b s : List ℕ) → AreBytes b → (UsesProgram (texts_of words.now) → P.left program.old ≡ Some b)
        → (UsesScript (texts_of words.now) b → Q.left script.old ≡ Some s)
        → IsQuiet (P.faults program.old) (P.faults program.new) → IsQuiet (Q.faults script.old) (Q.faults script.new) → IsQuiet (I.faults image.old) (I.faults image.new) → IsQuiet (R.faults report.old) (R.faults report.new)
        → ((a : Answer) × Due (texts_of words.now) b s a × (result ≡ a.status)) ⊎ (result ≡ Status.NoMemory) }

    // Where the source of the script fails, the report has the text of its first rows and no last line. No more records end
    // above 8,192 bytes before the last byte that was taken; so a bad row that ends there is told, and not the fault.
    ensures cut { (b s : List ℕ) → P.left program.old ≡ Some b → UsesScript (texts_of words.now) b → Q.left script.old ≡ Some s → result ≡ Status.ReadFault
        → (c : Command) × (command_of (texts_of words.now) ≡ Some c) × CutRun c b s (Q.left script.old) (Q.left script.new) (R.written report.old) (R.written report.new) }

    // Where a script's rows ran to the end, its source is at its end.
    ensures done { (l : ProgramLanguage) (effort : ℕ) → command_of (texts_of words.now) ≡ Some (Run l effort) → result ≡ Status.Done → IsAtEnd (Q.left script.new) }

    // The words alone decide whether they have a form.
    ensures words { (result ≡ Status.Words) ↔ (command_of (texts_of words.now) ≡ None) }

    // A fault is told only where a used object failed in this call.
    ensures read_fault { result ≡ Status.ReadFault → Rose (P.faults program.old) (P.faults program.new)
        ⊎ (MayReadScript (texts_of words.now) (P.left program.old) × Rose (Q.faults script.old) (Q.faults script.new)) }
    ensures write_fault { result ≡ Status.WriteFault → Rose (R.faults report.old) (R.faults report.new)
        ⊎ (MayWriteImage (texts_of words.now) (P.left program.old) × Rose (I.faults image.old) (I.faults image.new)) }
    ensures later { (P.faults program.old ≤ P.faults program.new) × (Q.faults script.old ≤ Q.faults script.new) × (I.faults image.old ≤ I.faults image.new) × (R.faults report.old ≤ R.faults report.new) }

    // What isn't used is left as it was.
    ensures no_form { command_of (texts_of words.now) ≡ None → (program.new ≡ program.old) × (report.new ≡ report.old) }
    ensures program { (UsesProgram (texts_of words.now) → ⊥) → program.new ≡ program.old }
    ensures script { (MayReadScript (texts_of words.now) (P.left program.old) → ⊥) → script.new ≡ script.old }
    ensures image { (MayWriteImage (texts_of words.now) (P.left program.old) → ⊥) → image.new ≡ image.old }
{
    answer(alloc, words, program, script, image, report)
}
