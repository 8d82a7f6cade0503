//! The ranges of limits, and the form of a stream.
use ss_frame::{Form, Limits};

/// The most octets of a message, the most messages, and whether there are such limits.
const RANGES: [(u32, u32, bool); 4] = [
    (0, 1, false),
    (1_048_577, 1, false),
    (1, 10_000_001, false),
    (1_048_576, 10_000_000, true),
];

/// Whether these are the form, the most octets of a message, and the most messages.
fn are_parts(limits: Limits, form: Form, max_len: u32, max_messages: u32) -> bool {
    limits.form() == form && limits.max_len() == max_len && limits.max_messages() == max_messages
}

/// Whether limits of three octets and ten messages are for frames unless lines are asked for.
fn has_forms(limits: Limits) -> bool {
    let lines = limits.lines();
    limits.form() == Form::Frames && are_parts(lines, Form::Lines, 3, 10) && lines.lines() == lines
}

#[test]
fn limits_have_ranges_and_a_form(rt: HostRuntime) {
    for (max_len, max_messages, made) in &RANGES {
        let is_made = Limits::new(*max_len, *max_messages).is_some();
        assert!(rt; is_made == *made, "{max_len}, {max_messages}");
    }
    let standard = Limits::standard();
    assert!(rt; Limits::new(65_536, 10_000_000) == Some(standard));
    assert!(rt; standard.form() == Form::Frames);
    assert!(rt; Limits::new(3, 10).is_some_and(has_forms));
}
