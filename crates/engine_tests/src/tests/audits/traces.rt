//! Traces, as they are worked out by hand.

// A watermark fires a window before the next line is injected.
pub(super) const MARKED: &str = r#"{"do":"claim","interval":0,"n":0,"worker":0}
{"do":"claim","interval":1,"n":1,"worker":0}
{"do":"inject","key":"a","late":false,"line":0,"n":2,"part":0,"seq":0,"ts":10,"value":1}
{"do":"handle","id":"00000000-0000-8000-8000-000000000002","n":3,"out":[],"part":1,"row":"a","seq":1,"state":"01000000000000000000000001000000000000003c0000000000000001","timers":[{"tag":0,"time":60}]}
{"do":"ack","id":"00000000-0000-8000-8000-000000000002","n":4,"part":0,"row":"","seq":0}
{"do":"fire","late":false,"mark":60,"n":5,"out":[{"key":"a","ts":60,"value":1}],"part":1,"row":"a","seq":1,"state":"01000000000000000000000000","tag":0,"time":60}
{"do":"inject","key":"a","late":false,"line":1,"n":6,"part":0,"seq":0,"ts":70,"value":1}
{"do":"handle","id":"00000000-0000-8000-8000-000000000006","n":7,"out":[],"part":1,"row":"a","seq":1,"state":"0100000000000000000000000100000000000000780000000000000001","timers":[{"tag":0,"time":120}]}
{"do":"ack","id":"00000000-0000-8000-8000-000000000006","n":8,"part":0,"row":"","seq":0}
{"do":"fire","late":false,"mark":120,"n":9,"out":[{"key":"a","ts":120,"value":1}],"part":1,"row":"a","seq":1,"state":"01000000000000000000000000","tag":0,"time":120}
{"do":"purge","floor":10,"n":10,"part":1,"row":"a","seq":1}
{"key":"a","stream":"windows","ts":60,"value":1}
{"key":"a","stream":"windows","ts":120,"value":1}
{"fired":2,"handled":2,"injected":2,"late":0}
"#;

// Three records, of which two are in one window.
pub(super) const THREE: &str = r#"{"do":"claim","interval":0,"n":0,"worker":0}
{"do":"claim","interval":1,"n":1,"worker":0}
{"do":"inject","key":"a","late":false,"line":0,"n":2,"part":0,"seq":0,"ts":10,"value":1}
{"do":"handle","id":"00000000-0000-8000-8000-000000000002","n":3,"out":[],"part":1,"row":"a","seq":1,"state":"01000000000000000000000001000000000000003c0000000000000001","timers":[{"tag":0,"time":60}]}
{"do":"ack","id":"00000000-0000-8000-8000-000000000002","n":4,"part":0,"row":"","seq":0}
{"do":"inject","key":"a","late":false,"line":1,"n":5,"part":0,"seq":0,"ts":59,"value":1}
{"do":"handle","id":"00000000-0000-8000-8000-000000000005","n":6,"out":[],"part":1,"row":"a","seq":1,"state":"01000000000000000000000001000000000000003c0000000000000002","timers":[{"tag":0,"time":60}]}
{"do":"ack","id":"00000000-0000-8000-8000-000000000005","n":7,"part":0,"row":"","seq":0}
{"do":"inject","key":"a","late":false,"line":2,"n":8,"part":0,"seq":0,"ts":60,"value":1}
{"do":"handle","id":"00000000-0000-8000-8000-000000000008","n":9,"out":[],"part":1,"row":"a","seq":1,"state":"01000000000000000000000002000000000000003c000000000000000200000000000000780000000000000001","timers":[{"tag":0,"time":120}]}
{"do":"ack","id":"00000000-0000-8000-8000-000000000008","n":10,"part":0,"row":"","seq":0}
{"do":"fire","late":false,"mark":60,"n":11,"out":[{"key":"a","ts":60,"value":2}],"part":1,"row":"a","seq":1,"state":"0100000000000000000000000100000000000000780000000000000001","tag":0,"time":60}
{"do":"fire","late":false,"mark":120,"n":12,"out":[{"key":"a","ts":120,"value":1}],"part":1,"row":"a","seq":1,"state":"01000000000000000000000000","tag":0,"time":120}
{"do":"purge","floor":13,"n":13,"part":1,"row":"a","seq":1}
{"key":"a","stream":"windows","ts":60,"value":2}
{"key":"a","stream":"windows","ts":120,"value":1}
{"fired":2,"handled":3,"injected":3,"late":0}
"#;

// The claims alone, without a record.
pub(super) const NONE: &str = r#"{"do":"claim","interval":0,"n":0,"worker":0}
{"do":"claim","interval":1,"n":1,"worker":0}
{"fired":0,"handled":0,"injected":0,"late":0}
"#;

// One record, with a worker that is overtaken before it is handled, as a script leaves it, and the
// drain behind that.
pub(super) const REPLAYED: &str = r#"{"do":"claim","interval":0,"n":0,"worker":0}
{"do":"claim","interval":1,"n":1,"worker":0}
{"do":"inject","key":"a","late":false,"line":0,"n":2,"part":0,"seq":0,"ts":10,"value":1}
{"do":"claim","interval":0,"n":3,"worker":1}
{"do":"claim","interval":1,"n":4,"worker":1}
{"do":"handle","id":"00000000-0000-8000-8000-000000000002","n":5,"out":[],"part":1,"row":"a","seq":4,"state":"01000000000000000000000001000000000000003c0000000000000001","timers":[{"tag":0,"time":60}]}
{"do":"claim","interval":0,"n":6,"worker":0}
{"do":"claim","interval":1,"n":7,"worker":0}
{"do":"ack","id":"00000000-0000-8000-8000-000000000002","n":8,"part":0,"row":"","seq":6}
{"do":"fire","late":false,"mark":60,"n":9,"out":[{"key":"a","ts":60,"value":1}],"part":1,"row":"a","seq":7,"state":"01000000000000000000000000","tag":0,"time":60}
{"do":"purge","floor":10,"n":10,"part":1,"row":"a","seq":7}
{"key":"a","stream":"windows","ts":60,"value":1}
{"fired":1,"handled":1,"injected":1,"late":0}
"#;
