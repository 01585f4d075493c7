//! What is refused, by which rule.
use super::changes::Source;
use crate::tests::foundations::all_hold;
use topology::TopologyRefusal;

// What is read, and the first rule that it breaks, if it breaks one.
static READ: [(Source, Option<TopologyRefusal>); 58] = [
    // Bytes that are no JSON text.
    (Source::Bytes(b""), Some(TopologyRefusal::NotJson)),
    (
        Source::Bytes(b"{\"injectors\":[{\"name\":\"clicks\",\"str"),
        Some(TopologyRefusal::NotJson),
    ),
    (
        Source::Bytes(b"{\"injectors\":[\"\xff\"],\"computations\":[]}"),
        Some(TopologyRefusal::NotJson),
    ),
    (
        Source::Bytes(b"\xef\xbb\xbf{}"),
        Some(TopologyRefusal::NotJson),
    ),
    (Source::Bytes(b"{} {}"), Some(TopologyRefusal::NotJson)),
    (
        Source::Bytes(b"{\"injectors\":[],\"computations\":[],}"),
        Some(TopologyRefusal::NotJson),
    ),
    // At most 127 levels, and at most 64 readings.
    (Source::Nested(127), Some(TopologyRefusal::BadShape)),
    (Source::Nested(128), Some(TopologyRefusal::NotJson)),
    (Source::Readings(60), None),
    (Source::Readings(61), Some(TopologyRefusal::TooMany)),
    // Another shape.
    (
        Source::Changed(r#"{"injectors""#, r#"{"more":1,"injectors""#),
        Some(TopologyRefusal::BadShape),
    ),
    (
        Source::Changed(r#"[{"name":"clicks","stream":"raw"}]"#, "[]"),
        Some(TopologyRefusal::BadShape),
    ),
    (
        Source::Changed(r#""clicks""#, "7"),
        Some(TopologyRefusal::BadShape),
    ),
    (
        Source::Changed(r#""name":"clicks","#, ""),
        Some(TopologyRefusal::BadShape),
    ),
    (
        Source::Changed(r#""count""#, r#""counts""#),
        Some(TopologyRefusal::BadShape),
    ),
    (
        Source::Changed("60", r#""60""#),
        Some(TopologyRefusal::BadShape),
    ),
    (
        Source::Changed("60", r#"60,"times":3"#),
        Some(TopologyRefusal::BadShape),
    ),
    (
        Source::Changed(r#""times":3"#, r#""times":true"#),
        Some(TopologyRefusal::BadShape),
    ),
    (
        Source::Changed(r#""pass""#, r#""pass","weak":1"#),
        Some(TopologyRefusal::BadShape),
    ),
    (
        Source::Changed("60", r#"60,"weak":true"#),
        Some(TopologyRefusal::BadShape),
    ),
    (Source::Changed(r#""pass""#, r#""pass","weak":false"#), None),
    (
        Source::Changed(r#"[{"stream":"raw","by":"tail"}]"#, "[]"),
        Some(TopologyRefusal::BadShape),
    ),
    (
        Source::Changed(r#""tail""#, r#""tails""#),
        Some(TopologyRefusal::BadShape),
    ),
    (
        Source::Changed(r#"["h","q"]"#, "null"),
        Some(TopologyRefusal::BadShape),
    ),
    // A name or a stream that is no name.
    (
        Source::Changed(r#""clicks""#, r#""Clicks""#),
        Some(TopologyRefusal::BadName),
    ),
    (
        Source::Changed(r#""clicks""#, r#""""#),
        Some(TopologyRefusal::BadName),
    ),
    (
        Source::Changed(r#""clicks""#, r#""9c""#),
        Some(TopologyRefusal::BadName),
    ),
    (
        Source::Changed(r#""copies""#, r#""\u00e9""#),
        Some(TopologyRefusal::BadName),
    ),
    // Two parts of one name.
    (
        Source::Changed(r#""copy""#, r#""clicks""#),
        Some(TopologyRefusal::DoubleName),
    ),
    // Two parts that publish one stream.
    (
        Source::Changed(r#""alerts""#, r#""raw""#),
        Some(TopologyRefusal::DoubleStream),
    ),
    // A computation that reads what no part before it publishes.
    (
        Source::Changed(r#""windows","by""#, r#""others","by""#),
        Some(TopologyRefusal::UnknownStream),
    ),
    (
        Source::Changed(r#""windows","by""#, r#""alerts","by""#),
        Some(TopologyRefusal::UnknownStream),
    ),
    (
        Source::Changed(r#""raw","by""#, r#""alerts","by""#),
        Some(TopologyRefusal::UnknownStream),
    ),
    // Numbers at the ends of their ranges, cuts that ascend, and two members of one name, of which the last counts.
    (Source::Changed("60", "1"), None),
    (Source::Changed("60", "1099511627776"), None),
    (Source::Changed(r#""last":2"#, r#""last":64"#), None),
    (Source::Changed(r#""times":3"#, r#""times":1000"#), None),
    (Source::Changed(r#"["h","q"]"#, "[]"), None),
    (Source::Changed(r#"["h","q"]"#, r#"["h","hh"]"#), None),
    (Source::Changed(r#"["h","q"]"#, r#"["Z","a"]"#), None),
    (
        Source::Changed(r#""size":60"#, r#""size":0,"size":60"#),
        None,
    ),
    (
        Source::Changed(r#"{"injectors""#, r#"{"injectors":[],"injectors""#),
        None,
    ),
    // A number that is not whole, or not in its range.
    (
        Source::Changed("60", "1099511627777"),
        Some(TopologyRefusal::BadNumber),
    ),
    (Source::Changed("60", "0"), Some(TopologyRefusal::BadNumber)),
    (
        Source::Changed("60", "-0"),
        Some(TopologyRefusal::BadNumber),
    ),
    (
        Source::Changed("60", "60.0"),
        Some(TopologyRefusal::BadNumber),
    ),
    (
        Source::Changed("60", "6e1"),
        Some(TopologyRefusal::BadNumber),
    ),
    (
        Source::Changed("60", "18446744073709551616"),
        Some(TopologyRefusal::BadNumber),
    ),
    (
        Source::Changed(r#""last":2"#, r#""last":65"#),
        Some(TopologyRefusal::BadNumber),
    ),
    (
        Source::Changed(r#""last":2"#, r#""last":4294967298"#),
        Some(TopologyRefusal::BadNumber),
    ),
    (
        Source::Changed(r#""times":3"#, r#""times":1001"#),
        Some(TopologyRefusal::BadNumber),
    ),
    (
        Source::Changed(r#""size":60"#, r#""size":60,"size":0"#),
        Some(TopologyRefusal::BadNumber),
    ),
    // Cuts that do not ascend, or of which one is empty.
    (
        Source::Changed(r#"["h","q"]"#, r#"["q","h"]"#),
        Some(TopologyRefusal::BadCuts),
    ),
    (
        Source::Changed(r#"["h","q"]"#, r#"["h","h"]"#),
        Some(TopologyRefusal::BadCuts),
    ),
    (
        Source::Changed(r#"["h","q"]"#, r#"["","h"]"#),
        Some(TopologyRefusal::BadCuts),
    ),
    // A weak pass that nothing reads.
    (
        Source::Changed(r#""pass""#, r#""pass","weak":true"#),
        Some(TopologyRefusal::BadWeak),
    ),
    // No JSON text, and a stream that is no text.
    (
        Source::Changed(r#"clicks","stream":"raw""#, r#"clicks","stream":7,""#),
        Some(TopologyRefusal::NotJson),
    ),
    // An unknown stream, and a number out of its range.
    (
        Source::Changed(
            r#"60,"reads":[{"stream":"raw""#,
            r#"0,"reads":[{"stream":"none""#,
        ),
        Some(TopologyRefusal::UnknownStream),
    ),
];

#[test]
fn the_first_broken_rule_is_named(rt: HostRuntime) {
    all_hold(&rt, rt.alloc(), &READ);
}
