// Groups, messages and journal records, written a second time from the sentences of documents 01 and
// 02. Of it only is proved that it is safe and ends.
#![tactic(auto)]

pub mod group;
pub mod list;
pub mod reader;
pub mod room;
pub mod wire;
