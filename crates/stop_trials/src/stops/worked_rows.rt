//! Worked rows: what is sent, the rows of the tables after none of it, after one request, and so on, and what is reported in
//! the end. They are written down here as docs/TABLES.md and docs/PROFILE.md have them, and not taken from a desk.

/// What is sent to the office.
#[derive(Clone, Copy)]
pub(crate) enum Request {
    /// An interchange.
    Delivery(&'static str),
    /// The code and the kind of an account that is to be added.
    Account(&'static str, &'static str),
}

/// A worked row.
#[derive(Clone, Copy)]
pub(crate) struct Worked {
    pub(crate) requests: &'static [Request],
    /// The rows after none of the requests, after the first, and so on, without those of the set-up. Of each row the
    /// columns.
    pub(crate) stages: &'static [&'static [&'static [&'static str]]],
    /// The report on the yard after all of them.
    pub(crate) yard: &'static str,
    /// The report on the vessel's load list, if there is one.
    pub(crate) load_list: Option<&'static str>,
}

/// The rows of the set-up but for the partners'. No request changes them.
pub(crate) const SET_UP: &str =
    "block|A|4|2|3\nsetting|discharge-list|43\nsetting|discharge-report|44\nsetting|gate-in|34\nsetting|gate-out|36\nsetting|load-list|45\nsetting|load-report|46\nsetting|terminal|TERM1\nsetting|version|3\nsetting|visits|1000\nsetting|yard-move|YMV\n";

pub(crate) const IN_1_17: &str =
    "UNB+UNOA:3+HAULA+TERM1+240305:0910+1'UNH+1+CODECO:D:95B:UN'BGM+34+G1+9'EQD+CN+ABCU0000017+22G1:102:5+++5'UNT+4+1'UNZ+1+1'";

/// The reply to it.
pub(crate) const DONE_1_17: &str =
    r#"{"contrl":"UNB+UNOA:3+TERM1+HAULA+240305:0910+1'UNH+1+CONTRL:D:3:UN'UCI+1+HAULA+TERM1+7'UCM+1+CODECO:D:95B:UN+7'UNT+4+1'UNZ+1+1'","messages":[{"lines":[{"box":"ABCU0000017","line":1,"outcome":"done","slot":"A001011"}],"reference":"1","result":"accepted"}]}"#;

const IN_1_17_TAKEN: &[&str] = &["interchange|1|1", IN_1_17, DONE_1_17];

const IN_2_22: &str =
    "UNB+UNOA:3+HAULA+TERM1+240305:0910+2'UNH+1+CODECO:D:95B:UN'BGM+34+G1+9'EQD+CN+ABCU0000022+22G1:102:5+++5'UNT+4+1'UNZ+1+2'";

const IN_2_22_WAITS: &[&str] = &["interchange|1|2", IN_2_22, ""];

const IN_2_22_TAKEN: &[&str] = &[
    "interchange|1|2",
    IN_2_22,
    r#"{"contrl":"UNB+UNOA:3+TERM1+HAULA+240305:0910+2'UNH+1+CONTRL:D:3:UN'UCI+2+HAULA+TERM1+7'UCM+1+CODECO:D:95B:UN+7'UNT+4+1'UNZ+1+2'","messages":[{"lines":[{"box":"ABCU0000022","line":1,"outcome":"done","slot":"A001021"}],"reference":"1","result":"accepted"}]}"#,
];

pub(crate) const IN_3_38: &str =
    "UNB+UNOA:3+HAULA+TERM1+240305:0910+3'UNH+1+CODECO:D:95B:UN'BGM+34+G1+9'EQD+CN+ABCU0000038+22G1:102:5+++5'UNT+4+1'UNZ+1+3'";

const IN_3_38_WAITS: &[&str] = &["interchange|1|3", IN_3_38, ""];

const IN_3_38_TAKEN: &[&str] = &[
    "interchange|1|3",
    IN_3_38,
    r#"{"contrl":"UNB+UNOA:3+TERM1+HAULA+240305:0910+3'UNH+1+CONTRL:D:3:UN'UCI+3+HAULA+TERM1+7'UCM+1+CODECO:D:95B:UN+7'UNT+4+1'UNZ+1+3'","messages":[{"lines":[{"box":"ABCU0000038","line":1,"outcome":"done","slot":"A003011"}],"reference":"1","result":"accepted"}]}"#,
];

const LOADLIST_1_22: &str =
    "UNB+UNOA:3+LINEA+TERM1+240305:0910+1'UNH+1+COPRAR:D:95B:UN'BGM+45+L1+9'TDT+20+V12++++++9123456'EQD+CN+ABCU0000022+22G1:102:5+++5'UNT+5+1'UNZ+1+1'";

const LOADLIST_1_22_TAKEN: &[&str] = &[
    "interchange|2|1",
    LOADLIST_1_22,
    r#"{"contrl":"UNB+UNOA:3+TERM1+LINEA+240305:0910+1'UNH+1+CONTRL:D:3:UN'UCI+1+LINEA+TERM1+7'UCM+1+COPRAR:D:95B:UN+7'UNT+4+1'UNZ+1+1'","messages":[{"lines":[{"box":"ABCU0000022","line":1,"outcome":"listed"}],"reference":"1","result":"accepted"}]}"#,
];

const LOADLIST_2_17: &str =
    "UNB+UNOA:3+LINEA+TERM1+240305:0910+2'UNH+1+COPRAR:D:95B:UN'BGM+45+L1+9'TDT+20+V12++++++9123456'EQD+CN+ABCU0000017+22G1:102:5+++5'UNT+5+1'UNZ+1+2'";

const LOADLIST_2_17_WAITS: &[&str] = &["interchange|2|2", LOADLIST_2_17, ""];

const LOADLIST_2_17_TAKEN: &[&str] = &[
    "interchange|2|2",
    LOADLIST_2_17,
    r#"{"contrl":"UNB+UNOA:3+TERM1+LINEA+240305:0910+2'UNH+1+CONTRL:D:3:UN'UCI+2+LINEA+TERM1+7'UCM+1+COPRAR:D:95B:UN+7'UNT+4+1'UNZ+1+2'","messages":[{"lines":[{"box":"ABCU0000017","line":1,"outcome":"listed"}],"reference":"1","result":"accepted"}]}"#,
];

const LOADLIST_3_22: &str =
    "UNB+UNOA:3+LINEA+TERM1+240305:0910+3'UNH+1+COPRAR:D:95B:UN'BGM+45+L1+9'TDT+20+V12++++++9123456'EQD+CN+ABCU0000022+22G1:102:5+++5'UNT+5+1'UNZ+1+3'";

const LOADLIST_3_22_TAKEN: &[&str] = &[
    "interchange|2|3",
    LOADLIST_3_22,
    r#"{"contrl":"UNB+UNOA:3+TERM1+LINEA+240305:0910+3'UNH+1+CONTRL:D:3:UN'UCI+3+LINEA+TERM1+7'UCM+1+COPRAR:D:95B:UN+7'UNT+4+1'UNZ+1+3'","messages":[{"lines":[{"box":"ABCU0000022","line":1,"outcome":"refused","reason":"AlreadyListed"}],"reference":"1","result":"accepted"}]}"#,
];

const LOAD_1_17: &str =
    "UNB+UNOA:3+QUAY1+TERM1+240305:0910+1'UNH+1+COARRI:D:95B:UN'BGM+46+L1+9'TDT+20+V12++++++9123456'EQD+CN+ABCU0000017+22G1:102:5+++5'UNT+5+1'UNZ+1+1'";

const LOAD_1_17_TAKEN: &[&str] = &[
    "interchange|3|1",
    LOAD_1_17,
    r#"{"contrl":"UNB+UNOA:3+TERM1+QUAY1+240305:0910+1'UNH+1+CONTRL:D:3:UN'UCI+1+QUAY1+TERM1+7'UCM+1+COARRI:D:95B:UN+7'UNT+4+1'UNZ+1+1'","messages":[{"lines":[{"box":"ABCU0000017","line":1,"outcome":"refused","reason":"NotListed"}],"reference":"1","result":"accepted"}]}"#,
];

const LOAD_2_17: &str =
    "UNB+UNOA:3+QUAY1+TERM1+240305:0910+2'UNH+1+COARRI:D:95B:UN'BGM+46+L1+9'TDT+20+V12++++++9123456'EQD+CN+ABCU0000017+22G1:102:5+++5'UNT+5+1'UNZ+1+2'";

const LOAD_2_17_TAKEN: &[&str] = &[
    "interchange|3|2",
    LOAD_2_17,
    r#"{"contrl":"UNB+UNOA:3+TERM1+QUAY1+240305:0910+2'UNH+1+CONTRL:D:3:UN'UCI+2+QUAY1+TERM1+7'UCM+1+COARRI:D:95B:UN+7'UNT+4+1'UNZ+1+2'","messages":[{"lines":[{"box":"ABCU0000017","line":1,"outcome":"gone"}],"reference":"1","result":"accepted"}]}"#,
];

const LOAD_3_17: &str =
    "UNB+UNOA:3+QUAY1+TERM1+240305:0910+3'UNH+1+COARRI:D:95B:UN'BGM+46+L1+9'TDT+20+V12++++++9123456'EQD+CN+ABCU0000017+22G1:102:5+++5'UNT+5+1'UNZ+1+3'";

const LOAD_3_17_TAKEN: &[&str] = &[
    "interchange|3|3",
    LOAD_3_17,
    r#"{"contrl":"UNB+UNOA:3+TERM1+QUAY1+240305:0910+3'UNH+1+CONTRL:D:3:UN'UCI+3+QUAY1+TERM1+7'UCM+1+COARRI:D:95B:UN+7'UNT+4+1'UNZ+1+3'","messages":[{"lines":[{"box":"ABCU0000017","line":1,"outcome":"refused","reason":"NotIn"}],"reference":"1","result":"accepted"}]}"#,
];

const NEW_IN_1_17: &str =
    "UNB+UNOA:3+HAULC+TERM1+240305:0910+1'UNH+1+CODECO:D:95B:UN'BGM+34+G1+9'EQD+CN+ABCU0000017+22G1:102:5+++5'UNT+4+1'UNZ+1+1'";

const NEW_IN_1_17_TAKEN: &[&str] = &[
    "interchange|4|1",
    NEW_IN_1_17,
    r#"{"contrl":"UNB+UNOA:3+TERM1+HAULC+240305:0910+1'UNH+1+CONTRL:D:3:UN'UCI+1+HAULC+TERM1+7'UCM+1+CODECO:D:95B:UN+7'UNT+4+1'UNZ+1+1'","messages":[{"lines":[{"box":"ABCU0000017","line":1,"outcome":"done","slot":"A001011"}],"reference":"1","result":"accepted"}]}"#,
];

const NEW_IN_2_22: &str =
    "UNB+UNOA:3+HAULC+TERM1+240305:0910+2'UNH+1+CODECO:D:95B:UN'BGM+34+G1+9'EQD+CN+ABCU0000022+22G1:102:5+++5'UNT+4+1'UNZ+1+2'";

const NEW_IN_2_22_WAITS: &[&str] = &["interchange|4|2", NEW_IN_2_22, ""];

const NEW_IN_2_22_TAKEN: &[&str] = &[
    "interchange|4|2",
    NEW_IN_2_22,
    r#"{"contrl":"UNB+UNOA:3+TERM1+HAULC+240305:0910+2'UNH+1+CONTRL:D:3:UN'UCI+2+HAULC+TERM1+7'UCM+1+CODECO:D:95B:UN+7'UNT+4+1'UNZ+1+2'","messages":[{"lines":[{"box":"ABCU0000022","line":1,"outcome":"done","slot":"A001021"}],"reference":"1","result":"accepted"}]}"#,
];

const HAULA_NEXT_1: &[&str] = &["partner|1|HAULA|1|1"];

const HAULA_NEXT_2: &[&str] = &["partner|1|HAULA|1|2"];

const HAULA_NEXT_4: &[&str] = &["partner|1|HAULA|1|4"];

const LINEA_NEXT_1: &[&str] = &["partner|2|LINEA|2|1"];

const LINEA_NEXT_3: &[&str] = &["partner|2|LINEA|2|3"];

const LINEA_NEXT_4: &[&str] = &["partner|2|LINEA|2|4"];

const QUAY1_NEXT_1: &[&str] = &["partner|3|QUAY1|3|1"];

const QUAY1_NEXT_2: &[&str] = &["partner|3|QUAY1|3|2"];

const QUAY1_NEXT_3: &[&str] = &["partner|3|QUAY1|3|3"];

const QUAY1_NEXT_4: &[&str] = &["partner|3|QUAY1|3|4"];

const HAULC_NEXT_1: &[&str] = &["partner|4|HAULC|1|1"];

const HAULC_NEXT_3: &[&str] = &["partner|4|HAULC|1|3"];

const PLACE_17: &[&str] = &["place|ABCU0000017|1|A001011"];

const PLACE_22: &[&str] = &["place|ABCU0000022|2|A001021"];

const PLACE_38: &[&str] = &["place|ABCU0000038|3|A003011"];

const VISIT_17: &[&str] = &["visit|1|ABCU0000017|22G1|1||1|1|1|202403050910|A001011|0|0|0||0"];

const VISIT_17_ENDED: &[&str] = &[
    "visit|1|ABCU0000017|22G1|1||1|1|1|202403050910|A001011|2|3|2|202403050910|0",
];

const VISIT_22: &[&str] = &["visit|2|ABCU0000022|22G1|1||1|1|2|202403050910|A001021|0|0|0||0"];

const VISIT_38: &[&str] = &["visit|3|ABCU0000038|22G1|1||1|1|3|202403050910|A003011|0|0|0||0"];

const NEW_VISIT_17: &[&str] = &["visit|1|ABCU0000017|22G1|1||1|4|1|202403050910|A001011|0|0|0||0"];

const NEW_VISIT_22: &[&str] = &["visit|2|ABCU0000022|22G1|1||1|4|2|202403050910|A001021|0|0|0||0"];

const LISTED_17: &[&str] = &["listed|9123456|V12|1|ABCU0000017||0"];

const LISTED_17_DONE: &[&str] = &["listed|9123456|V12|1|ABCU0000017||1"];

const LISTED_22: &[&str] = &["listed|9123456|V12|1|ABCU0000022||0"];

const NOTHING_SENT: &[&[&str]] = &[HAULA_NEXT_1, LINEA_NEXT_1, QUAY1_NEXT_1];

const THREE_STAND: &str =
    "YARD\nA001011 ABCU0000017 22G1 FULL\nA001021 ABCU0000022 22G1 FULL\nA003011 ABCU0000038 22G1 FULL\n3 CONTAINERS\n";

const GAP_CLOSED: &[&[&str]] = &[
    IN_1_17_TAKEN,
    IN_2_22_TAKEN,
    IN_3_38_TAKEN,
    HAULA_NEXT_4,
    LINEA_NEXT_1,
    QUAY1_NEXT_1,
    PLACE_17,
    PLACE_22,
    PLACE_38,
    VISIT_17,
    VISIT_22,
    VISIT_38,
];

/// An early one waits, and gaps close.
pub(crate) const WAITING: Worked = Worked {
    requests: &[
        Request::Delivery(IN_3_38),
        Request::Delivery(IN_2_22),
        Request::Delivery(IN_3_38),
        Request::Delivery(IN_1_17),
        Request::Delivery(IN_3_38),
    ],
    stages: &[
        NOTHING_SENT,
        &[IN_3_38_WAITS, HAULA_NEXT_1, LINEA_NEXT_1, QUAY1_NEXT_1],
        &[
            IN_2_22_WAITS,
            IN_3_38_WAITS,
            HAULA_NEXT_1,
            LINEA_NEXT_1,
            QUAY1_NEXT_1,
        ],
        &[
            IN_2_22_WAITS,
            IN_3_38_WAITS,
            HAULA_NEXT_1,
            LINEA_NEXT_1,
            QUAY1_NEXT_1,
        ],
        GAP_CLOSED,
        GAP_CLOSED,
    ],
    yard: THREE_STAND,
    load_list: None,
};

/// A load list.
pub(crate) const LOADING: Worked = Worked {
    requests: &[
        Request::Delivery(IN_1_17),
        Request::Delivery(LOADLIST_2_17),
        Request::Delivery(LOAD_1_17),
        Request::Delivery(LOADLIST_1_22),
        Request::Delivery(LOAD_2_17),
        Request::Delivery(LOAD_3_17),
        Request::Delivery(LOADLIST_3_22),
    ],
    stages: &[
        NOTHING_SENT,
        &[
            IN_1_17_TAKEN,
            HAULA_NEXT_2,
            LINEA_NEXT_1,
            QUAY1_NEXT_1,
            PLACE_17,
            VISIT_17,
        ],
        &[
            IN_1_17_TAKEN,
            LOADLIST_2_17_WAITS,
            HAULA_NEXT_2,
            LINEA_NEXT_1,
            QUAY1_NEXT_1,
            PLACE_17,
            VISIT_17,
        ],
        &[
            IN_1_17_TAKEN,
            LOADLIST_2_17_WAITS,
            LOAD_1_17_TAKEN,
            HAULA_NEXT_2,
            LINEA_NEXT_1,
            QUAY1_NEXT_2,
            PLACE_17,
            VISIT_17,
        ],
        &[
            IN_1_17_TAKEN,
            LOADLIST_1_22_TAKEN,
            LOADLIST_2_17_TAKEN,
            LOAD_1_17_TAKEN,
            LISTED_17,
            LISTED_22,
            HAULA_NEXT_2,
            LINEA_NEXT_3,
            QUAY1_NEXT_2,
            PLACE_17,
            VISIT_17,
        ],
        &[
            IN_1_17_TAKEN,
            LOADLIST_1_22_TAKEN,
            LOADLIST_2_17_TAKEN,
            LOAD_1_17_TAKEN,
            LOAD_2_17_TAKEN,
            LISTED_17_DONE,
            LISTED_22,
            HAULA_NEXT_2,
            LINEA_NEXT_3,
            QUAY1_NEXT_3,
            VISIT_17_ENDED,
        ],
        &[
            IN_1_17_TAKEN,
            LOADLIST_1_22_TAKEN,
            LOADLIST_2_17_TAKEN,
            LOAD_1_17_TAKEN,
            LOAD_2_17_TAKEN,
            LOAD_3_17_TAKEN,
            LISTED_17_DONE,
            LISTED_22,
            HAULA_NEXT_2,
            LINEA_NEXT_3,
            QUAY1_NEXT_4,
            VISIT_17_ENDED,
        ],
        &[
            IN_1_17_TAKEN,
            LOADLIST_1_22_TAKEN,
            LOADLIST_2_17_TAKEN,
            LOADLIST_3_22_TAKEN,
            LOAD_1_17_TAKEN,
            LOAD_2_17_TAKEN,
            LOAD_3_17_TAKEN,
            LISTED_17_DONE,
            LISTED_22,
            HAULA_NEXT_2,
            LINEA_NEXT_4,
            QUAY1_NEXT_4,
            VISIT_17_ENDED,
        ],
    ],
    yard: "YARD\n0 CONTAINERS\n",
    load_list: Some("LOAD LIST 9123456 V12\nABCU0000017 DONE\nABCU0000022 OPEN\n1 OPEN 1 DONE\n"),
};

const ACCOUNT_ADDED: &[&[&str]] = &[HAULA_NEXT_1, LINEA_NEXT_1, QUAY1_NEXT_1, HAULC_NEXT_1];

/// An account is added, and what its sender sent before stays refused.
pub(crate) const ADDING: Worked = Worked {
    requests: &[
        Request::Delivery(NEW_IN_1_17),
        Request::Account("HAULC", "gate"),
        Request::Account("HAULC", "gate"),
        Request::Delivery(NEW_IN_2_22),
        Request::Delivery(NEW_IN_1_17),
    ],
    stages: &[
        NOTHING_SENT,
        NOTHING_SENT,
        ACCOUNT_ADDED,
        ACCOUNT_ADDED,
        &[
            NEW_IN_2_22_WAITS,
            HAULA_NEXT_1,
            LINEA_NEXT_1,
            QUAY1_NEXT_1,
            HAULC_NEXT_1,
        ],
        &[
            NEW_IN_1_17_TAKEN,
            NEW_IN_2_22_TAKEN,
            HAULA_NEXT_1,
            LINEA_NEXT_1,
            QUAY1_NEXT_1,
            HAULC_NEXT_3,
            PLACE_17,
            PLACE_22,
            NEW_VISIT_17,
            NEW_VISIT_22,
        ],
    ],
    yard: "YARD\nA001011 ABCU0000017 22G1 FULL\nA001021 ABCU0000022 22G1 FULL\n2 CONTAINERS\n",
    load_list: None,
};

/// An old store, as it was brought over: one was taken, and one waits.
const BROUGHT_OVER: &[&[&str]] = &[
    IN_1_17_TAKEN,
    IN_3_38_WAITS,
    HAULA_NEXT_2,
    PLACE_17,
    VISIT_17,
];

const OLD_GAP_CLOSED: &[&[&str]] = &[
    IN_1_17_TAKEN,
    IN_2_22_TAKEN,
    IN_3_38_TAKEN,
    HAULA_NEXT_4,
    PLACE_17,
    PLACE_22,
    PLACE_38,
    VISIT_17,
    VISIT_22,
    VISIT_38,
];

/// What waited in an old store is taken.
pub(crate) const MIGRATED: Worked = Worked {
    requests: &[
        Request::Delivery(IN_3_38),
        Request::Delivery(IN_2_22),
        Request::Delivery(IN_1_17),
    ],
    stages: &[BROUGHT_OVER, BROUGHT_OVER, OLD_GAP_CLOSED, OLD_GAP_CLOSED],
    yard: THREE_STAND,
    load_list: None,
};
