//! Writers of the fields of frames. Each writes the spelling of one field.

ghost use Rattle.std.specs.Prelude.{◌≡◌, ◌++◌, ◌∷◌, [], ◌<◌, ◌^◌, ◌≤◌, length, OnOk, option_map};
ghost use Rattle.basil_types.specs.Shown.{transaction_of};
ghost use Rattle.basil_types.specs.Limits.{signature_limit};
ghost use Rattle.basil_types.specs.Transaction.{canonical, short_text, long_text};
ghost use Rattle.basil_types.specs.Words.{decision_byte};
ghost use Rattle.frame_views.specs.Shown.{certificate_of, committed_of};
ghost use Rattle.frame_views.specs.Spelling.{certificate_bytes, committed_bytes, optional, u64_bytes};
ghost use Rattle.frame_writing.specs.Draft.{Writes};

use super::draft::Draft;
use basil_types::memory::NoMemory;
use basil_types::party::Decision;
use basil_types::transaction::{Transaction, TransactionView};
use frame_views::certificates::CertificateView;
use frame_views::frames::CommittedView;

/// A key behind its length of one byte.
pub(super) fn write_key(key: &[u8], out: &mut Draft) -> Result<(), NoMemory>
    requires { length key.now ≤ 64 }
    ensures kept { out.new.kept ≡ out.old.kept }
    ensures writes { OnOk result (Writes out.old out.new (short_text key.now)) }
{
    out.push(key.len() as u8)?;
    out.extend(key)?;
    Ok(())
}

/// A signature behind its length of two bytes.
pub(super) fn write_signature(signature: &[u8], out: &mut Draft) -> Result<(), NoMemory>
    requires { length signature.now ≤ signature_limit }
    ensures kept { out.new.kept ≡ out.old.kept }
    ensures writes { OnOk result (Writes out.old out.new (long_text signature.now)) }
{
    out.extend(&(signature.len() as u16).to_be_bytes())?;
    out.extend(signature)?;
    Ok(())
}

/// A number of eight bytes, big-endian.
#[tactic(auto, unfolding(frame_views::specs::Spelling::u64_bytes))]
pub(super) fn write_number(number: u64, out: &mut Draft) -> Result<(), NoMemory>
    ensures kept { out.new.kept ≡ out.old.kept }
    ensures writes { OnOk result (Writes out.old out.new (u64_bytes number)) }
{
    out.extend(&number.to_be_bytes())?;
    Ok(())
}

/// A decision: 0 to commit, 1 to abort.
pub(super) fn write_decision(decision: Decision, out: &mut Draft) -> Result<(), NoMemory>
    ensures kept { out.new.kept ≡ out.old.kept }
    ensures writes { OnOk result (Writes out.old out.new (decision_byte decision ∷ [])) }
{
    let byte = match decision {
        Decision::Commit => 0,
        Decision::Abort => 1,
    };
    out.push(byte)?;
    Ok(())
}

/// A transaction's canonical bytes.
pub(super) fn write_transaction(
    transaction: &TransactionView<'_>,
    out: &mut Draft,
) -> Result<(), NoMemory>
    ensures kept { out.new.kept ≡ out.old.kept }
    ensures writes { OnOk result (Writes out.old out.new (canonical (transaction_of transaction.now))) }
{
    out.extend(transaction.bytes())?;
    Ok(())
}

/// An owned transaction's canonical bytes.
pub(super) fn write_owned_transaction(
    transaction: &Transaction,
    out: &mut Draft,
) -> Result<(), NoMemory>
    ensures kept { out.new.kept ≡ out.old.kept }
    ensures writes { OnOk result (Writes out.old out.new (canonical transaction.now)) }
{
    write_transaction(&transaction.view(), out)
}

/// A certificate's bytes.
pub(super) fn write_stored(
    certificate: &CertificateView<'_>,
    out: &mut Draft,
) -> Result<(), NoMemory>
    ensures kept { out.new.kept ≡ out.old.kept }
    ensures writes { OnOk result (Writes out.old out.new (certificate_bytes (certificate_of certificate.now))) }
{
    out.extend(certificate.bytes())?;
    Ok(())
}

/// A transaction and a certificate.
pub(super) fn write_pair(
    transaction: &TransactionView<'_>,
    certificate: &CertificateView<'_>,
    out: &mut Draft,
) -> Result<(), NoMemory>
    ensures kept { out.new.kept ≡ out.old.kept }
    ensures writes { OnOk result (Writes out.old out.new ((canonical (transaction_of transaction.now)
        ++ certificate_bytes (certificate_of certificate.now)))) }
{
    write_transaction(transaction, out)?;
    write_stored(certificate, out)?;
    Ok(())
}

/// A committed transaction behind a flag, which is 0 where there is none.
pub(super) fn write_committed(
    part: &Option<CommittedView<'_>>,
    out: &mut Draft,
) -> Result<(), NoMemory>
    ensures kept { out.new.kept ≡ out.old.kept }
    ensures writes { OnOk result (out.new.written ≡ out.old.written
        ++ optional committed_bytes (option_map committed_of part.now)) }
{
    match part {
        Some(part) => {
            out.push(1)?;
            write_pair(&part.transaction, &part.certificate, out)?;
            Ok(())
        }
        None => {
            out.push(0)?;
            Ok(())
        }
    }
}

/// A prepared transaction behind a flag, which is 0 where there is none.
pub(super) fn write_prepared(
    part: &Option<TransactionView<'_>>,
    out: &mut Draft,
) -> Result<(), NoMemory>
    ensures kept { out.new.kept ≡ out.old.kept }
    ensures writes { OnOk result (Writes out.old out.new (optional canonical (option_map transaction_of part.now))) }
{
    match part {
        Some(part) => {
            out.push(1)?;
            write_transaction(part, out)?;
            Ok(())
        }
        None => {
            out.push(0)?;
            Ok(())
        }
    }
}

/// An owned prepared transaction behind a flag, which is 0 where there is none.
pub(super) fn write_owned_prepared(
    part: &Option<Transaction>,
    out: &mut Draft,
) -> Result<(), NoMemory>
    ensures kept { out.new.kept ≡ out.old.kept }
    ensures writes { OnOk result (Writes out.old out.new (optional canonical part.now)) }
{
    match part {
        Some(part) => {
            out.push(1)?;
            write_owned_transaction(part, out)?;
            Ok(())
        }
        None => {
            out.push(0)?;
            Ok(())
        }
    }
}
