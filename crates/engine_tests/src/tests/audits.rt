//! Live lines that are pumped and collected, lines of a printed history and what they tell, histories that are
//! followed choice by choice, and printed ones that are audited: rows that were worked out by hand, and what
//! differs from them.
mod accepted;
mod cases;
mod collected;
mod followed_choices;
mod pumped;
mod refused;
mod told_lines;
mod traces;

// A text has fewer bytes.
const MOST: usize = 1 << 32;
