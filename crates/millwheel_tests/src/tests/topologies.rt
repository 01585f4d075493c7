//! The topologies of the tests.

// One count over windows of 60.
pub const COUNT: &str =
    r#"{"injectors":[{"name":"clicks","stream":"raw"}],"computations":[{"name":"per_minute","kind":"count","size":60,"reads":[{"stream":"raw","by":"key"}],"stream":"windows"}]}
"#;

// One count over windows of 60, of what two injectors inject.
pub const TWO: &str =
    r#"{"injectors":[{"name":"left","stream":"l"},{"name":"right","stream":"r"}],"computations":[{"name":"per_minute","kind":"count","size":60,"reads":[{"stream":"l","by":"key"},{"stream":"r","by":"key"}],"stream":"windows"}]}
"#;

// A spike behind that count.
pub const SPIKE: &str =
    r#"{"injectors":[{"name":"clicks","stream":"raw"}],"computations":[{"name":"per_minute","kind":"count","size":60,"reads":[{"stream":"raw","by":"key"}],"stream":"windows"},{"name":"spikes","kind":"spike","last":2,"times":3,"reads":[{"stream":"windows","by":"key"}],"stream":"alerts"}]}
"#;

// One count over windows of 1000, by the key's head.
pub const HEADS: &str =
    r#"{"injectors":[{"name":"clicks","stream":"raw"}],"computations":[{"name":"per_minute","kind":"count","size":1000,"reads":[{"stream":"raw","by":"head"}],"stream":"windows"}]}
"#;

// One count in three intervals.
pub const CUTS: &str =
    r#"{"injectors":[{"name":"clicks","stream":"raw"}],"computations":[{"name":"per_minute","kind":"count","size":60,"reads":[{"stream":"raw","by":"key"}],"stream":"windows","cuts":["h","q"]}]}
"#;

// What is injected is passed on, by the key's tail.
pub const TAILS: &str =
    r#"{"injectors":[{"name":"clicks","stream":"raw"}],"computations":[{"name":"copy","kind":"pass","reads":[{"stream":"raw","by":"tail"}],"stream":"copies"}]}
"#;

// A count, and what passes the same stream on.
pub const READERS: &str =
    r#"{"injectors":[{"name":"clicks","stream":"raw"}],"computations":[{"name":"per_minute","kind":"count","size":60,"reads":[{"stream":"raw","by":"key"}],"stream":"windows"},{"name":"copy","kind":"pass","reads":[{"stream":"raw","by":"key"}],"stream":"copies"}]}
"#;

// A count over windows of 3600, of what a count over windows of 60 makes.
pub const CHAIN: &str =
    r#"{"injectors":[{"name":"clicks","stream":"raw"}],"computations":[{"name":"per_minute","kind":"count","size":60,"reads":[{"stream":"raw","by":"key"}],"stream":"windows"},{"name":"per_hour","kind":"count","size":3600,"reads":[{"stream":"windows","by":"key"}],"stream":"hours"}]}
"#;

// A count with other names, its members in another order, and with blanks between them.
pub const SPELLED: &str =
    r#"{ "computations": [{"stream":"sums", "cuts":[], "size":60, "kind":"count", "reads":[{"by":"key","stream":"in_1"}], "name":"c"}],
 "injectors": [{"stream":"in_1","name":"i"}] }"#;

// What is injected is read by nobody.
pub const UNREAD: &str = r#"{"injectors":[{"name":"clicks","stream":"raw"}],"computations":[]}"#;

// One count over windows of 60, of what a weak pass sends on.
pub const RELAYED: &str =
    r#"{"injectors":[{"name":"clicks","stream":"raw"}],"computations":[{"name":"near","kind":"pass","weak":true,"reads":[{"stream":"raw","by":"key"}],"stream":"mid"},{"name":"per_minute","kind":"count","size":60,"reads":[{"stream":"mid","by":"key"}],"stream":"windows"}]}
"#;
