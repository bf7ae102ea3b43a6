// Lines with admin commands, letter for letter: which moment's facts they get, and when they get none; what was counted; and what
// becomes of a shutdown and of a backup.
ghost use Rattle.std.specs.Prelude.{◌≡◌, ◌<◌, ℕ, length};
ghost use Rattle.silt_event.specs.declared.admin.Admin.{Admin as AdminOf};
ghost use Rattle.silt_event.specs.declared.admin.AdminReply.{AdminReply as AdminReplyOf};
ghost use Rattle.silt_event.specs.declared.event.Event.{Event as EventOf};
ghost use Rattle.silt_event.specs.Events.{PlainReply};

use silt_event::{Admin, AdminReply, Answerer, COUNTS, Counts, Event, Facts, Reply};
use silt_wire::session_over;
use std::alloc::Global;
use std::io::Cursor;
use std::process::Abort;

// Accepts each event, and counts them. Its other facts are all different; if it is lost it has none.
#[derive(Drop)]
pub(crate) struct Known {
    pub(crate) count: u64,
    pub(crate) is_lost: bool,
    pub(crate) counts: Option<Counts>,
    pub(crate) shutdown: AdminReply,
    pub(crate) backup: AdminReply,
}

// As many numbers as a server counts, all different.
pub(crate) const NUMBERS: [u64; COUNTS] = [
    100, 101, 102, 103, 104, 105, 106, 107, 108, 109, 110, 111, 112, 113, 114, 115, 116, 117, 118,
    119, 120, 121, 122, 123, 124, 125, 126, 127, 128, 129, 130, 131, 132, 133, 134, 135, 136, 137,
];

// Has facts, and serves no other admin command.
impl Default for Known {
    fn default() -> Known {
        Known {
            count: 0,
            is_lost: false,
            counts: None,
            shutdown: AdminReply::NotServed,
            backup: AdminReply::NotServed,
        }
    }
}

impl Known {
    // The facts and the counts.
    fn info(&self) -> AdminReply {
        if self.is_lost {
            return AdminReply::NotServed;
        }
        let facts = Facts {
            stores: 3,
            failed: 1,
            commands: self.count,
            charge: 5,
            capacity: 8,
            generation: 13,
            frozen_logs: 21,
            hash_stores: 34,
            sorted_entries: 55,
            converted_slots: 89,
            merge_steps: 144,
        };
        AdminReply::Info(facts, self.counts)
    }
}

impl Answerer for Known {
    ghost value_len = { λ _. 8 };

    ghost answers = { λ old new event reply. Unit {0} };

    ghost administers = { λ answerer admin reply. Unit {0} };

    fn answer(&mut self, _alloc: Global, _event: Event) -> Reply<()> {
        self.count = self.count.wrapping_add(1);
        Reply::Accepted(self.count)
    }

    fn administer(&self, admin: Admin) -> AdminReply {
        match admin {
            Admin::Info => self.info(),
            Admin::Shutdown => self.shutdown,
            Admin::Backup => self.backup,
        }
    }
}

// What a session over these lines writes, whose reads fill this buffer.
fn written(alloc: Global, known: Known, buffer: &mut [u8], lines: &[u8]) -> Vec<u8>
    requires { 0 < length buffer.old }
{
    let mut reader = Cursor::new(lines);
    let mut out = Vec::new(alloc);
    let mut known = known;
    let _ = session_over(alloc, 8, buffer, &mut reader, &mut out, &mut known);
    out
}

// Two questions among events, and words that ask for nothing.
const LINES: &[u8] = b"flush\nget =a\ninfo\nflush\n\ninfo\r\ninfo store\nINFO\n info\nflush\ninfo";

const FACTS: &[u8] =
    b"accepted 1\naccepted 2\nstores 3\nfailed 1\ncommands 2\ncharge 5\ncapacity 8\n\
        generation 13\nfrozen_logs 21\nhash_stores 34\nsorted_entries 55\nconverted_slots 89\n\
        merge_steps 144\nend\naccepted 3\nstores 3\nfailed 1\ncommands 3\ncharge 5\ncapacity 8\n\
        generation 13\nfrozen_logs 21\nhash_stores 34\nsorted_entries 55\nconverted_slots 89\n\
        merge_steps 144\nend\nrefused 20 BadLine\nrefused 20 BadLine\nrefused 20 BadLine\n\
        accepted 4\n";

// Facts are those of the moment: after all lines before, however these were read. Bytes after the last line feed ask for
// nothing.
#[test]
fn gives_the_facts_of_the_moment(rt: HostRuntime) {
    let mut buffer = [0; 100];
    let out = written(rt.alloc(), Known::default(), &mut buffer, LINES);
    assert!(rt; out.as_slice() == FACTS);
    let mut byte = [0; 1];
    let out = written(rt.alloc(), Known::default(), &mut byte, LINES);
    assert!(rt; out.as_slice() == FACTS);
}

// An answerer without facts has one line, that of an event that is not served.
#[test]
fn refuses_what_has_no_facts(rt: HostRuntime) {
    let mut buffer = [0; 100];
    let out = written(
        rt.alloc(),
        Known {
            is_lost: true,
            ..Known::default()
        },
        &mut buffer,
        b"info\nflush\n".as_slice(),
    );
    assert!(rt; out.as_slice() == b"refused 20 BadLine\naccepted 1\n".as_slice());
}

const COUNTED: &[u8] = b"accepted 1\nstores 3\nfailed 1\ncommands 1\ncharge 5\ncapacity 8\n\
        generation 13\nfrozen_logs 21\nhash_stores 34\nsorted_entries 55\n\
        converted_slots 89\nmerge_steps 144\nuptime 100\nconnections 101\n\
        open_connections 102\nrefused_connections 103\ngets 104\nputs 105\n\
        deletes 106\nswaps 107\nflushes 108\nrefused_1 109\nrefused_2 110\n\
        refused_3 111\nrefused_4 112\nrefused_5 113\nrefused_6 114\nrefused_7 115\n\
        refused_8 116\nrefused_9 117\nrefused_10 118\nrefused_11 119\nbatches 120\n\
        batches_128us 121\nbatches_256us 122\nbatches_512us 123\nbatches_1ms 124\n\
        batches_2ms 125\nbatches_4ms 126\nbatches_8ms 127\nbatches_16ms 128\n\
        batches_32ms 129\nbatches_65ms 130\nbatches_131ms 131\nbatches_262ms 132\n\
        batches_longer 133\nlast_failure 134\nfindings 135\nscrubs 136\nbackups 137\n\
        end\naccepted 2\n";

// What was counted comes behind the facts.
#[test]
fn gives_what_was_counted(rt: HostRuntime) {
    let mut buffer = [0; 100];
    let lines = b"flush\ninfo\nflush\n".as_slice();
    let out = written(
        rt.alloc(),
        Known {
            counts: Some(Counts { numbers: NUMBERS }),
            ..Known::default()
        },
        &mut buffer,
        lines,
    );
    assert!(rt; out.as_slice() == COUNTED);
}

// A shutdown, a backup, and lines that are neither.
const ORDERS: &[u8] = b"flush\nshutdown\nflush\nbackup\r\nshutdown now\nSHUTDOWN\n backup\nflush\n";

// Each has its own reply, behind those of the events before it. Lines behind a shutdown get their replies too.
#[test]
fn says_what_becomes_of_orders(rt: HostRuntime) {
    for (shutdown, backup, due) in [
        (
            AdminReply::Begun,
            AdminReply::UnderWay,
            "accepted 1\nbegun\naccepted 2\nunder way\nrefused 20 BadLine\nrefused 20 BadLine\n\
            refused 20 BadLine\naccepted 3\n",
        ),
        (
            AdminReply::NotServed,
            AdminReply::Begun,
            "accepted 1\nrefused 20 BadLine\naccepted 2\nbegun\nrefused 20 BadLine\n\
            refused 20 BadLine\nrefused 20 BadLine\naccepted 3\n",
        ),
        (
            AdminReply::UnderWay,
            AdminReply::NotServed,
            "accepted 1\nunder way\naccepted 2\nrefused 20 BadLine\nrefused 20 BadLine\n\
            refused 20 BadLine\nrefused 20 BadLine\naccepted 3\n",
        ),
    ] {
        let mut buffer = [0; 100];
        let known = Known {
            shutdown,
            backup,
            ..Known::default()
        };
        let out = written(rt.alloc(), known, &mut buffer, ORDERS);
        assert!(rt; out.as_slice() == due.as_bytes());
    }
}
