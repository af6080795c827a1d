//! From bytes to a certificate.

ghost use Rattle.std.specs.Prelude.{◌≡◌, ◌+◌, List, ℕ, [], if◌then◌else◌, IfOk, MatchResult, Ok, Result, codes};
ghost use Rattle.std.specs.Str.{bytes_eq};
ghost use Rattle.std.specs.Str.Lines.{lines};
ghost use Rattle.proof_model.specs.declared.fault.ProofFault.{ProofFault};
ghost use Rattle.proof_model.specs.declared.fault.ProofFault.TheVariants.{NoMemory};
ghost use Rattle.proof_model.specs.Certificate.{Certificate};
ghost use Rattle.proof_model.specs.Forms.{line_of};
ghost use Rattle.proof_model.specs.NumberedProofs.{IsNumbered};
ghost use Rattle.proof_model.specs.Reading.{Lines, IsProofFault, at_last, by_line, no_lines, proof_of, read_from};
ghost use Rattle.proof_model.specs.ProofView.{lines_of, proof_view};
ghost use Rattle.proof_model.specs.Writing.{proof_text};

use crate::fault::ProofFault;
use crate::line::{Line, read_line};
use crate::proof::{Bound, Listed, Proof};
use std::alloc::Global;
use text_lines::first_line;

const HEADER: &[u8] = b"anyk-proof 1";

/// The number of the line after this one. `NoMemory` if it does not fit 32 bits: there is no memory
/// for so many lines.
fn number_after(number: u32) -> Result<u32, ProofFault>
    ensures { MatchResult result (λ next. next ≡ number + 1) (λ e. e ≡ NoMemory) }
{
    match number.checked_add(1) {
        Some(next) => Ok(next),
        None => Err(ProofFault::NoMemory),
    }
}

/// Puts what the line says to what was read, and returns whether it is the last line.
fn put_line(alloc: Global, read: &mut Proof, number: u32, text: &[u8]) -> Result<bool, ProofFault>
    ensures { (more : List (List ℕ)) (later : Lines → Result Certificate ProofFault)
        → let all = by_line number (lines_of read.old) (line_of text.now) more later in
        MatchResult result
        (λ last. all ≡ (if last then at_last number (proof_view read.new) more else later
        (lines_of read.new)))
        (λ e. IsProofFault all e) }
{
    let Some(line) = read_line(alloc, text)? else {
        return Err(ProofFault::BadLine(number));
    };
    match line {
        Line::Bound(node, rows) => {
            if !read.answers.is_empty() {
                return Err(ProofFault::BadLine(number));
            }
            read.bounds.push(Bound {
                line: number,
                node,
                rows,
            })?;
            Ok(false)
        }
        Line::Answer(rows) => {
            read.answers.push(Listed { line: number, rows })?;
            Ok(false)
        }
        Line::Last(ended) => {
            read.ended = ended;
            Ok(true)
        }
    }
}

/// The certificate whose last line has this number, if nothing is after it.
fn finished(read: Proof, number: u32, after: &[u8]) -> Result<Proof, ProofFault>
    ensures { let all = at_last number (proof_view read) (lines after.now) in
        MatchResult result (λ proof. all ≡ Ok (proof_view proof)) (λ e. IsProofFault all e) }
{
    if first_line(after).is_none() {
        return Ok(read);
    }
    let next = number_after(number)?;
    Err(ProofFault::BadLine(next))
}

/// The certificate of the lines after the header.
fn read_lines(alloc: Global, bytes: &[u8]) -> Result<Proof, ProofFault>
    ensures { let all = read_from 2 no_lines (lines bytes.now) in
        MatchResult result (λ proof. all ≡ Ok (proof_view proof)) (λ e. IsProofFault all e) }
{
    let mut read = Proof {
        bounds: Vec::new(alloc),
        answers: Vec::new(alloc),
        ended: false,
    };
    let mut rest = bytes;
    let mut number = 2;
    'lines: while let Some((text, after)) = first_line(rest) {
        if put_line(alloc, &mut read, number, text)? {
            return finished(read, number, after);
        }
        number = number_after(number)?;
        rest = after;
    }
    Err(ProofFault::BadLine(number))
}

/// Whether a line is a certificate's header.
fn is_header(text: &[u8]) -> bool
    ensures { result ≡ bytes_eq text.now (codes "anyk-proof 1") }
{
    text == HEADER
}

/// The certificate that bytes are. Lines count from 1. `BadHeader` if the first line is missing, or
/// another one than `anyk-proof 1`. `BadLine` with the first line that has no form, or one that it
/// cannot have at its place; if the last line is missing, its number is that of the line after all.
/// `NoMemory` if memory is refused, or if the number of a line does not fit 32 bits.
pub fn read_proof(alloc: Global, bytes: &[u8]) -> Result<Proof, ProofFault>
    // The certificate that the text is, or the reason why it is none.
    ensures read { let all = proof_of bytes.now in
        MatchResult result (λ proof. all ≡ Ok (proof_view proof)) (λ e. IsProofFault all e) }
    // Its lines are numbered as they stand, each has a row, and its numbers have at most 7 digits.
    ensures numbered { IfOk result (λ proof. IsNumbered (proof_view proof)) }
    // The lines are those that are written of it: the form, said without the reader.
    ensures written { IfOk result
        (λ proof. lines (proof_text (proof_view proof)) ≡ lines bytes.now) }
{
    let Some((first, rest)) = first_line(bytes) else {
        return Err(ProofFault::BadHeader);
    };
    if !is_header(first) {
        return Err(ProofFault::BadHeader);
    }
    read_lines(alloc, rest)
}
