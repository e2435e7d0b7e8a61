//! Certificates written of borrowed parts.

use crate::writebacks::CONFLICT_ABORT;
use basil_codec::{
    BodyParts, CertBody, CertificateParts, CertificateView, MessageView, check, own_certificate,
    put_certificate, put_owned_certificate,
};
use basil_types::cluster::Cluster;
use std::alloc::Global;
use std::process::Abort;
use std::test::Fail;

/// A conflict abort of the parts of a view has the bytes of that view.
fn conflict_abort_again(
    rt: &impl Abort,
    alloc: Global,
    certificate: &CertificateView<'_>,
) -> Result<(), Fail> {
    let bytes = certificate.bytes();
    match certificate.body() {
        CertBody::ConflictAbort {
            shard,
            replica,
            signature,
            other,
            proof,
        } => {
            let body = BodyParts::ConflictAbort {
                shard,
                replica,
                signature,
                other,
                proof,
            };
            let mut out = Vec::new(alloc);
            put_certificate(
                &CertificateParts {
                    id: certificate.id(),
                    body,
                },
                &mut out,
            )?;
            assert!(rt; out.as_slice() == bytes);
            Ok(())
        }
        _ => Err(Fail::from("another kind")),
    }
}

/// An owned certificate of a view has the bytes of that view.
fn owned_again(
    rt: &impl Abort,
    alloc: Global,
    certificate: &CertificateView<'_>,
) -> Result<(), Fail> {
    let bytes = certificate.bytes();
    let owned = own_certificate(alloc, certificate)?;
    let mut out = Vec::new(alloc);
    put_owned_certificate(&owned, &mut out)?;
    assert!(rt; out.as_slice() == bytes);
    Ok(())
}

#[test]
fn conflict_abort_is_written(rt: HostRuntime) -> Result<(), Fail> {
    let cluster = Cluster::new(1, 1, 2, 100)?;
    let bytes = hex::decode(rt.alloc(), CONFLICT_ABORT)?;
    match check(&bytes, &cluster) {
        Ok(MessageView::Writeback(m)) => {
            conflict_abort_again(&rt, rt.alloc(), &m.certificate)?;
            owned_again(&rt, rt.alloc(), &m.certificate)
        }
        _ => Err(Fail::from("refused")),
    }
}
