// Admin commands, letter for letter: which sections INFO has, and of which moment its facts are; and what becomes of SHUTDOWN and of
// BGSAVE.
ghost use Rattle.std.specs.Prelude.{◌≡◌, ◌<◌, length};

use crate::wire::facts::{Known, NUMBERS};
use silt_event::{AdminReply, Counts};
use silt_resp::{Settings, resp_session};
use std::alloc::Global;
use std::io::Cursor;
use std::process::Abort;

// What a session over these bytes writes, whose reads fill this buffer.
fn written(
    alloc: Global,
    known: &mut Known,
    password: Option<[u8; 20]>,
    buffer: &mut [u8],
    bytes: &[u8],
) -> Vec<u8>
    requires { 0 < length buffer.old }
{
    let settings = Settings {
        value_len: 8,
        password,
        id: 7,
    };
    let reader = Cursor::new(bytes);
    let mut out = Vec::new(alloc);
    let _ = resp_session(alloc, &settings, buffer, reader, &mut out, known);
    out
}

// What clients send, each to a new store, and the replies.
const REPLIES: [(&str, &str); 14] = [
    (
        "INFO\r\n",
        "$230\r\n# Server\r\nredis_version:7.0.0\r\nsilt_version:0.1.0\r\nloading:0\r\n\r\n\
        # Store\r\nstores:3\r\nfailed:1\r\ncommands:0\r\ncharge:5\r\ncapacity:8\r\n\
        generation:13\r\nfrozen_logs:21\r\nhash_stores:34\r\nsorted_entries:55\r\n\
        converted_slots:89\r\nmerge_steps:144\r\n\r\n",
    ),
    (
        "*1\r\n$4\r\ninfo\r\n",
        "$230\r\n# Server\r\nredis_version:7.0.0\r\nsilt_version:0.1.0\r\nloading:0\r\n\r\n\
        # Store\r\nstores:3\r\nfailed:1\r\ncommands:0\r\ncharge:5\r\ncapacity:8\r\n\
        generation:13\r\nfrozen_logs:21\r\nhash_stores:34\r\nsorted_entries:55\r\n\
        converted_slots:89\r\nmerge_steps:144\r\n\r\n",
    ),
    (
        "INFO all\r\n",
        "$230\r\n# Server\r\nredis_version:7.0.0\r\nsilt_version:0.1.0\r\nloading:0\r\n\r\n\
        # Store\r\nstores:3\r\nfailed:1\r\ncommands:0\r\ncharge:5\r\ncapacity:8\r\n\
        generation:13\r\nfrozen_logs:21\r\nhash_stores:34\r\nsorted_entries:55\r\n\
        converted_slots:89\r\nmerge_steps:144\r\n\r\n",
    ),
    (
        "info Everything\r\n",
        "$230\r\n# Server\r\nredis_version:7.0.0\r\nsilt_version:0.1.0\r\nloading:0\r\n\r\n\
        # Store\r\nstores:3\r\nfailed:1\r\ncommands:0\r\ncharge:5\r\ncapacity:8\r\n\
        generation:13\r\nfrozen_logs:21\r\nhash_stores:34\r\nsorted_entries:55\r\n\
        converted_slots:89\r\nmerge_steps:144\r\n\r\n",
    ),
    (
        "INFO store default\r\n",
        "$230\r\n# Server\r\nredis_version:7.0.0\r\nsilt_version:0.1.0\r\nloading:0\r\n\r\n\
        # Store\r\nstores:3\r\nfailed:1\r\ncommands:0\r\ncharge:5\r\ncapacity:8\r\n\
        generation:13\r\nfrozen_logs:21\r\nhash_stores:34\r\nsorted_entries:55\r\n\
        converted_slots:89\r\nmerge_steps:144\r\n\r\n",
    ),
    (
        "INFO store server\r\n",
        "$230\r\n# Server\r\nredis_version:7.0.0\r\nsilt_version:0.1.0\r\nloading:0\r\n\r\n\
        # Store\r\nstores:3\r\nfailed:1\r\ncommands:0\r\ncharge:5\r\ncapacity:8\r\n\
        generation:13\r\nfrozen_logs:21\r\nhash_stores:34\r\nsorted_entries:55\r\n\
        converted_slots:89\r\nmerge_steps:144\r\n\r\n",
    ),
    (
        "INFO SERVER\r\n",
        "$62\r\n# Server\r\nredis_version:7.0.0\r\nsilt_version:0.1.0\r\nloading:0\r\n\r\n",
    ),
    (
        "INFO store\r\n",
        "$166\r\n# Store\r\nstores:3\r\nfailed:1\r\ncommands:0\r\ncharge:5\r\ncapacity:8\r\n\
        generation:13\r\nfrozen_logs:21\r\nhash_stores:34\r\nsorted_entries:55\r\n\
        converted_slots:89\r\nmerge_steps:144\r\n\r\n",
    ),
    (
        "INFO store keyspace\r\n",
        "$166\r\n# Store\r\nstores:3\r\nfailed:1\r\ncommands:0\r\ncharge:5\r\ncapacity:8\r\n\
        generation:13\r\nfrozen_logs:21\r\nhash_stores:34\r\nsorted_entries:55\r\n\
        converted_slots:89\r\nmerge_steps:144\r\n\r\n",
    ),
    ("INFO keyspace\r\n", "$0\r\n\r\n"),
    ("INFO store2\r\n", "$0\r\n\r\n"),
    ("INFO stats\r\n", "$0\r\n\r\n"),
    (
        "GET a\r\nDEL a b\r\nPING\r\nINFO store\r\nGET a\r\nINFO store\r\n",
        "$-1\r\n:0\r\n+PONG\r\n$166\r\n# Store\r\nstores:3\r\nfailed:1\r\ncommands:5\r\n\
        charge:5\r\ncapacity:8\r\ngeneration:13\r\nfrozen_logs:21\r\nhash_stores:34\r\n\
        sorted_entries:55\r\nconverted_slots:89\r\nmerge_steps:144\r\n\r\n$-1\r\n$166\r\n\
        # Store\r\nstores:3\r\nfailed:1\r\ncommands:6\r\ncharge:5\r\ncapacity:8\r\n\
        generation:13\r\nfrozen_logs:21\r\nhash_stores:34\r\nsorted_entries:55\r\n\
        converted_slots:89\r\nmerge_steps:144\r\n\r\n",
    ),
    (
        "INFO server\r\nQUIT\r\nINFO\r\n",
        "$62\r\n# Server\r\nredis_version:7.0.0\r\nsilt_version:0.1.0\r\nloading:0\r\n\r\n+OK\r\n",
    ),
];

#[test]
fn says_the_sections_that_are_asked_for(rt: HostRuntime) {
    for (bytes, due) in REPLIES {
        let mut known = Known::default();
        let mut buffer = [0; 100];
        let out = written(rt.alloc(), &mut known, None, &mut buffer, bytes.as_bytes());
        assert!(rt; out.as_slice() == due.as_bytes());
    }
}

// With short reads the replies are the same.
#[test]
fn says_the_same_if_reads_are_short(rt: HostRuntime) {
    for (bytes, due) in REPLIES {
        let mut known = Known::default();
        let mut buffer = [0; 1];
        let out = written(rt.alloc(), &mut known, None, &mut buffer, bytes.as_bytes());
        assert!(rt; out.as_slice() == due.as_bytes());
    }
}

// A store that cannot be reached has no facts, and a client that is not let in gets none.
#[test]
fn says_nothing_without_facts_or_a_password(rt: HostRuntime) {
    let mut buffer = [0; 100];
    let mut lost = Known {
        is_lost: true,
        ..Known::default()
    };
    let out = written(
        rt.alloc(),
        &mut lost,
        None,
        &mut buffer,
        b"INFO\r\nPING\r\n".as_slice(),
    );
    assert!(rt; out.as_slice() == b"-ERR not served\r\n+PONG\r\n".as_slice());
    let mut known = Known::default();
    let out = written(
        rt.alloc(),
        &mut known,
        Some([0; 20]),
        &mut buffer,
        b"INFO\r\n".as_slice(),
    );
    assert!(rt; out.as_slice() == b"-NOAUTH Authentication required.\r\n".as_slice());
}

// What a client of a server that counts sends, and the replies.
const COUNTED: [(&str, &str); 4] = [
    (
        "INFO\r\n",
        "$848\r\n# Server\r\nredis_version:7.0.0\r\nsilt_version:0.1.0\r\nloading:0\r\n\
        \r\n# Store\r\nstores:3\r\nfailed:1\r\ncommands:0\r\ncharge:5\r\n\
        capacity:8\r\ngeneration:13\r\nfrozen_logs:21\r\nhash_stores:34\r\n\
        sorted_entries:55\r\nconverted_slots:89\r\nmerge_steps:144\r\n\r\n# Stats\r\n\
        uptime:100\r\nconnections:101\r\nopen_connections:102\r\n\
        refused_connections:103\r\ngets:104\r\nputs:105\r\ndeletes:106\r\n\
        swaps:107\r\nflushes:108\r\nrefused_1:109\r\nrefused_2:110\r\n\
        refused_3:111\r\nrefused_4:112\r\nrefused_5:113\r\nrefused_6:114\r\n\
        refused_7:115\r\nrefused_8:116\r\nrefused_9:117\r\nrefused_10:118\r\n\
        refused_11:119\r\nbatches:120\r\nbatches_128us:121\r\nbatches_256us:122\r\n\
        batches_512us:123\r\nbatches_1ms:124\r\nbatches_2ms:125\r\nbatches_4ms:126\r\n\
        batches_8ms:127\r\nbatches_16ms:128\r\nbatches_32ms:129\r\n\
        batches_65ms:130\r\nbatches_131ms:131\r\nbatches_262ms:132\r\n\
        batches_longer:133\r\nlast_failure:134\r\nfindings:135\r\nscrubs:136\r\n\
        backups:137\r\n\r\n",
    ),
    (
        "info Stats\r\n",
        "$616\r\n# Stats\r\nuptime:100\r\nconnections:101\r\nopen_connections:102\r\n\
        refused_connections:103\r\ngets:104\r\nputs:105\r\ndeletes:106\r\n\
        swaps:107\r\nflushes:108\r\nrefused_1:109\r\nrefused_2:110\r\n\
        refused_3:111\r\nrefused_4:112\r\nrefused_5:113\r\nrefused_6:114\r\n\
        refused_7:115\r\nrefused_8:116\r\nrefused_9:117\r\nrefused_10:118\r\n\
        refused_11:119\r\nbatches:120\r\nbatches_128us:121\r\nbatches_256us:122\r\n\
        batches_512us:123\r\nbatches_1ms:124\r\nbatches_2ms:125\r\nbatches_4ms:126\r\n\
        batches_8ms:127\r\nbatches_16ms:128\r\nbatches_32ms:129\r\n\
        batches_65ms:130\r\nbatches_131ms:131\r\nbatches_262ms:132\r\n\
        batches_longer:133\r\nlast_failure:134\r\nfindings:135\r\nscrubs:136\r\n\
        backups:137\r\n\r\n",
    ),
    (
        "INFO stats server\r\n",
        "$680\r\n# Server\r\nredis_version:7.0.0\r\nsilt_version:0.1.0\r\nloading:0\r\n\
        \r\n# Stats\r\nuptime:100\r\nconnections:101\r\nopen_connections:102\r\n\
        refused_connections:103\r\ngets:104\r\nputs:105\r\ndeletes:106\r\n\
        swaps:107\r\nflushes:108\r\nrefused_1:109\r\nrefused_2:110\r\n\
        refused_3:111\r\nrefused_4:112\r\nrefused_5:113\r\nrefused_6:114\r\n\
        refused_7:115\r\nrefused_8:116\r\nrefused_9:117\r\nrefused_10:118\r\n\
        refused_11:119\r\nbatches:120\r\nbatches_128us:121\r\nbatches_256us:122\r\n\
        batches_512us:123\r\nbatches_1ms:124\r\nbatches_2ms:125\r\nbatches_4ms:126\r\n\
        batches_8ms:127\r\nbatches_16ms:128\r\nbatches_32ms:129\r\n\
        batches_65ms:130\r\nbatches_131ms:131\r\nbatches_262ms:132\r\n\
        batches_longer:133\r\nlast_failure:134\r\nfindings:135\r\nscrubs:136\r\n\
        backups:137\r\n\r\n",
    ),
    (
        "INFO store\r\n",
        "$166\r\n# Store\r\nstores:3\r\nfailed:1\r\ncommands:0\r\ncharge:5\r\n\
        capacity:8\r\ngeneration:13\r\nfrozen_logs:21\r\nhash_stores:34\r\n\
        sorted_entries:55\r\nconverted_slots:89\r\nmerge_steps:144\r\n\r\n",
    ),
];

#[test]
fn says_what_was_counted(rt: HostRuntime) {
    for (bytes, due) in COUNTED {
        let mut known = Known {
            counts: Some(Counts { numbers: NUMBERS }),
            ..Known::default()
        };
        let mut buffer = [0; 100];
        let out = written(rt.alloc(), &mut known, None, &mut buffer, bytes.as_bytes());
        assert!(rt; out.as_slice() == due.as_bytes());
    }
}

// What a client sends, and the replies of servers that reply so to a shutdown and to a backup. A shutdown that begins has no
// reply, and the commands behind it have theirs.
const ORDERS: [(AdminReply, AdminReply, &str, &str); 7] = [
    (
        AdminReply::Begun,
        AdminReply::Begun,
        "GET a\r\nSHUTDOWN\r\nGET a\r\nBGSAVE\r\nPING\r\n",
        "$-1\r\n$-1\r\n+Background saving started\r\n+PONG\r\n",
    ),
    (
        AdminReply::UnderWay,
        AdminReply::UnderWay,
        "SHUTDOWN\r\nBGSAVE\r\n",
        "-ERR Background save already in progress\r\n",
    ),
    (
        AdminReply::NotServed,
        AdminReply::NotServed,
        "SHUTDOWN\r\nBGSAVE\r\n",
        "-ERR not served\r\n-ERR not served\r\n",
    ),
    (
        AdminReply::NotServed,
        AdminReply::Begun,
        "*2\r\n$8\r\nshutdown\r\n$6\r\nNoSave\r\nshutdown SAVE\r\nbgsave Schedule\r\n",
        "-ERR not served\r\n-ERR not served\r\n+Background saving started\r\n",
    ),
    (
        AdminReply::Begun,
        AdminReply::Begun,
        "SHUTDOWN save\r\nSHUTDOWN now\r\nSHUTDOWN force\r\nPING\r\n",
        "+PONG\r\n",
    ),
    (
        AdminReply::Begun,
        AdminReply::Begun,
        "SHUTDOWN abort\r\nSHUTDOWN nosave now\r\nSHUTDOWN schedule\r\n",
        "-ERR syntax error\r\n-ERR syntax error\r\n-ERR syntax error\r\n",
    ),
    (
        AdminReply::Begun,
        AdminReply::Begun,
        "BGSAVE now\r\nBGSAVE schedule schedule\r\nSHUTDOWN2\r\n",
        "-ERR syntax error\r\n-ERR syntax error\r\n-ERR unknown command 'SHUTDOWN2'\r\n",
    ),
];

#[test]
fn says_what_becomes_of_orders(rt: HostRuntime) {
    for (shutdown, backup, bytes, due) in ORDERS {
        let mut known = Known {
            shutdown,
            backup,
            ..Known::default()
        };
        let mut buffer = [0; 100];
        let out = written(rt.alloc(), &mut known, None, &mut buffer, bytes.as_bytes());
        assert!(rt; out.as_slice() == due.as_bytes());
    }
}

// A client that is not let in orders nothing.
#[test]
fn takes_no_orders_without_the_password(rt: HostRuntime) {
    let mut known = Known {
        shutdown: AdminReply::Begun,
        backup: AdminReply::Begun,
        ..Known::default()
    };
    let mut buffer = [0; 100];
    let out = written(
        rt.alloc(),
        &mut known,
        Some([0; 20]),
        &mut buffer,
        b"SHUTDOWN\r\nBGSAVE\r\n".as_slice(),
    );
    let due =
        b"-NOAUTH Authentication required.\r\n-NOAUTH Authentication required.\r\n".as_slice();
    assert!(rt; out.as_slice() == due);
}
