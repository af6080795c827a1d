//! The script or the certificate, if there is one.
ghost use Rattle.std.specs.Prelude.{◌≡◌, [], IfErr, IfOk, Some, option_map};
ghost use Rattle.refusals.specs.RefusalReasons.{reason_of};
ghost use Rattle.proof_model.specs.ProofView.{proof_view};
ghost use Rattle.session_script.specs.Script.{KeepsRules};
ghost use Rattle.verdict.specs.Faults.{of_proof, of_script};
ghost use Rattle.verdict.specs.Loading.{beside_in, no_certificate};
ghost use Rattle.verdict.specs.Stages.{Is};
ghost use Rattle.verdict.specs.StageResults.{Pure, Staged, TellsOne, shelved};
ghost use Rattle.verdict.specs.Words.{aside_name};
ghost use Rattle.command_input.specs.StageViews.{beside_result_view};
ghost use Rattle.command_input.specs.InputFiles.{aside_view, beside_said};

use crate::file::load;
use crate::input_files::SideFile;
use outer_io::Shelf;
use proof_model::{Proof, ProofFault, read_proof};
use refusals::Refusal;
use session_script::{ScriptFault, Step, read_script};
use std::alloc::Global;

/// What is read beside the query and the tables.
#[derive(Drop)]
pub(crate) struct SideInput {
    /// The steps of the script; none if there is no script.
    pub(crate) script: Vec<Step>,
    /// The certificate; the empty one if there is none.
    pub(crate) proof: Proof,
}

/// The script or the certificate in this file. The error is a refusal of the file, of the script or
/// of the certificate, or `NoMemory`.
pub(crate) fn read_side_input<'a, F: Shelf>(
    alloc: Global,
    aside: SideFile<'a>,
    shelf: &mut F,
) -> Result<SideInput, Refusal<'a>>
    ensures staged { let asked = aside_view aside.entry in
        Staged (λ files. Is (beside_in files asked)) (λ files file. aside_name asked ≡ Some file)
        (shelved F.Shelf shelf.old) (shelved F.Shelf shelf.new) (beside_result_view result) }
    ensures tells { let asked = aside_view aside.entry in
        IfErr result
        (λ refusal. TellsOne (λ file. aside_name asked ≡ Some file) (reason_of refusal)) }
    ensures rules { IfOk result (λ beside. KeepsRules [] beside.script.items) }
{
    let Some(name) = name_of(aside) else {
        return said_beside(alloc, aside, &[]);
    };
    let bytes = load(alloc, shelf, name)?;
    said_beside(alloc, aside, &bytes)
}

/// The name of the file, if there is one.
fn name_of<'a>(aside: SideFile<'a>) -> Option<&'a str>
    ensures { option_map (λ name. name.now) result ≡ aside_name (aside_view aside.entry) }
{
    match aside {
        SideFile::Nothing => None,
        SideFile::Script(name) => Some(name),
        SideFile::Certificate(name) => Some(name),
    }
}

/// The empty certificate.
fn no_proof(alloc: Global) -> Proof
    ensures { proof_view result ≡ no_certificate }
{
    Proof {
        bounds: Vec::new(alloc),
        answers: Vec::new(alloc),
        ended: false,
    }
}

/// The steps or the certificate that the bytes of the file are, or the refusal for their fault. If
/// there is no file there are neither.
pub(crate) fn said_beside<'a>(
    alloc: Global,
    aside: SideFile<'_>,
    bytes: &[u8],
) -> Result<SideInput, Refusal<'a>>
    ensures said { Pure (Is (beside_said (aside_view aside.entry) bytes.now))
        (beside_result_view result) }
    ensures rules { IfOk result (λ beside. KeepsRules [] beside.script.items) }
{
    match aside {
        SideFile::Nothing => Ok(SideInput {
            script: Vec::new(alloc),
            proof: no_proof(alloc),
        }),
        SideFile::Script(_) => match read_script(alloc, bytes) {
            Ok(script) => Ok(SideInput {
                script,
                proof: no_proof(alloc),
            }),
            Err(fault) => Err(script_refusal(fault)),
        },
        SideFile::Certificate(_) => match read_proof(alloc, bytes) {
            Ok(proof) => Ok(SideInput {
                script: Vec::new(alloc),
                proof,
            }),
            Err(fault) => Err(proof_refusal(fault)),
        },
    }
}

/// The refusal for a fault of a script.
fn script_refusal<'a>(fault: ScriptFault) -> Refusal<'a>
    ensures { reason_of result ≡ of_script fault }
{
    match fault {
        ScriptFault::TooManyLines => Refusal::TooManyLines,
        ScriptFault::BadLine(line) => Refusal::BadLine(line),
        ScriptFault::UnknownCursor(line) => Refusal::UnknownCursor(line),
        ScriptFault::CursorExists(line) => Refusal::CursorExists(line),
        ScriptFault::TooManyOpen(line) => Refusal::TooManyOpen(line),
        ScriptFault::NoMemory => Refusal::NoMemory,
    }
}

/// The refusal for a fault of a certificate.
pub fn proof_refusal<'a>(fault: ProofFault) -> Refusal<'a>
    ensures { reason_of result ≡ of_proof fault }
{
    match fault {
        ProofFault::BadHeader => Refusal::BadProofHeader,
        ProofFault::BadLine(line) => Refusal::BadProofLine(line),
        ProofFault::TooManyRows(_most) => Refusal::TooManyNodeRows,
        ProofFault::BadBound(line) => Refusal::BadBound(line),
        ProofFault::BoundTwice(line) => Refusal::BoundTwice(line),
        ProofFault::Weak(node) => Refusal::WeakBound(node),
        ProofFault::BadAnswer(line) => Refusal::BadAnswer(line),
        ProofFault::Order(line) => Refusal::AnswerOrder(line),
        ProofFault::Count => Refusal::AnswerCount,
        ProofFault::Missed => Refusal::MissedAnswer,
        ProofFault::NoMemory => Refusal::NoMemory,
    }
}
