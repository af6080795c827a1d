//! Why the answers of a certificate are not those of a query.
ghost use Rattle.std.specs.Prelude.{◌≡◌};
ghost use Rattle.refusals.specs.RefusalReasons.{reason_of};
ghost use Rattle.command_verify.specs.Verifications.{check_reason};

use bound_query::ShapeFault;
use command_input::proof_refusal;
use proof_model::ProofFault;
use refusals::Refusal;

/// Why the answers of a certificate are not those of a query.
#[derive(Clone, Copy)]
pub(crate) enum CheckFault {
    /// The query has no join tree.
    Shape(ShapeFault),
    /// Its nodes have too many rows, or the certificate is not valid.
    Proof(ProofFault),
}

/// The refusal for a fault.
pub(crate) fn check_refusal<'a>(fault: CheckFault) -> Refusal<'a>
    ensures { reason_of result ≡ check_reason fault }
{
    match fault {
        CheckFault::Shape(ShapeFault::Cyclic(core)) => Refusal::Cyclic { branch: None, core },
        CheckFault::Shape(ShapeFault::NoMemory) => Refusal::NoMemory,
        CheckFault::Proof(fault) => proof_refusal(fault),
    }
}
