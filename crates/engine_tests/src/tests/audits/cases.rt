//! What an audit of a text answers.
use super::MOST;
use crate::tests::text_cases::{COUNT, case};
use audit::audit;
use std::alloc::Global;
use std::process::Abort;
use trace_lines::{AuditRefusal, AuditWhy};

// An answer: how many entries, or the line that is wrong, and what it says.
pub(super) type Answer = (usize, &'static str);

/// One record, at 10.
pub(super) const ONE: &str = r#"{"key":"a","ts":10}
"#;

/// What an audit of a text answers, of windows of 60 over an event file.
pub(super) fn answer_of(rt: &impl Abort, alloc: Global, events: &str, text: &str) -> Answer {
    let bytes = text.as_bytes();
    if bytes.len() >= MOST {
        rt.panic("the text is too long");
    }
    let case = case(rt, alloc, COUNT, events);
    let answered = audit(alloc, &case, bytes);
    let told = match &answered {
        Ok(history) => (history.len(), "Ok"),
        Err(AuditRefusal::Bad { line, why }) => {
            let name = match why {
                AuditWhy::NotALine => "NotALine",
                AuditWhy::Unlawful => "Unlawful",
                AuditWhy::NotFinished => "NotFinished",
                AuditWhy::BadText => "BadText",
            };
            (*line as usize, name)
        }
        Err(AuditRefusal::NoMemory) => (0, "NoMemory"),
    };
    drop(answered);
    drop(case);
    told
}
