//! XDR (RFC 4506): words, opaques, optionals and lists, as they stand in RPC messages.
#![tactic(auto)]

mod blob;
mod codec_fault;
mod fits;
mod lent;
mod reader;
mod record;
mod writer;

pub use blob::{Blob, Memory};
pub use codec_fault::CodecFault;
pub use fits::{fits_u32, fits_u64};
pub use lent::Lent;
pub use reader::{Reader, XdrFault};
pub use record::Record;
pub use writer::Writer;
