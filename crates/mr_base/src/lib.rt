//! The types on which every other crate stands: timestamps, ids, bytes, lists, rows, messages, and the
//! interface of a transaction's script.
#![tactic(auto)]

mod byte_string;
mod ids;
mod list;
mod memory;
mod messages;
mod nodes;
mod results;
mod rows;
mod script;
mod settings;
mod spans;
mod states;
mod text_parts;
mod timestamps;

pub use byte_string::Bytes;
pub use ids::{AttemptId, MsgId, NodeId, RangeId, TxnId};
pub use list::ListOf;
pub use memory::{CloneIn, Memory};
pub use messages::{Body, Fate, Known, Message, Reply, Request};
pub use nodes::{NodeInfo, NodeSet, nodes_of_the_empty_set};
pub use results::{StatementResult, Verb};
pub use rows::{Datum, EvalFault, Row, RowList};
pub use script::{Fed, FixedScript, Need, Script};
pub use settings::{Kind, Settings};
pub use spans::{Ask, Pair, Span, Write};
pub use states::SqlState;
pub use text_parts::{after_head, before_tail, is_utf8, round_blank};
pub use timestamps::{Reading, Ts, order_of_timestamps};
