use edi_syntax::Moment;

/// How moments are written, and the days between them, the program shows in its reports: the model's cases.
#[test]
fn reads_days_of_the_calendar_alone(rt: HostRuntime) {
    let rows: &[(&[u8], bool)] = &[
        (b"20000229", true),
        (b"20230229", false),
        (b"20240229", true),
        (b"21000229", false),
        (b"20241231", true),
        (b"20240431", false),
        (b"20240001", false),
        (b"20241301", false),
        (b"20240100", false),
        (b"00000101", true),
        (b"99991231", true),
        (b"202403050910", true),
        (b"202403052359", true),
        (b"202403052400", false),
        (b"202403050960", false),
        (b"2024030509", false),
        (b"2024030509100", false),
        (b"2024-305", false),
        (b"", false),
    ];
    for (text, expected) in rows {
        assert!(rt; Moment::parse(text).is_some() == *expected);
    }
}
