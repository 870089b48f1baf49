//! The packets of an OpenBook Ultra channel: what each one says, or why it is refused, and the request for a retransmission.
#![tactic(auto)]

mod fault;
mod message;
mod point;
mod points;
mod price;
mod reader;
mod request;

pub use fault::{ReadFault, RequestFault};
pub use message::{Class, Message, Packet};
pub use point::{DeltaPoint, PricePoint, Reason, Side, UnknownLetter};
pub use points::{Point, Points};
pub use price::billionths;
pub use reader::read;
pub use request::{REQUEST, SourceId, write_request};
