// The fit check's public calls, and nothing else: none asks anything of its caller. Each stands with its contract where
// it is defined; what it answers is declared in `reply`.
#![tactic(auto)]

pub use ask_text::ask;
pub use ask_words::asked_by;
pub use bounds::{demand, request, table};
pub use critical::critical;
pub use explain::explain;
pub use fit_text::fit;
pub use plain::plain;
pub use rules::check;
pub use verdict::judge;
