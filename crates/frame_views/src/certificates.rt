//! Certificates: their bodies by kinds, and views of their bytes.

pub(crate) mod body;
pub(crate) mod parse;
pub(crate) mod view;

pub use body::CertBody;
pub use view::CertificateView;
