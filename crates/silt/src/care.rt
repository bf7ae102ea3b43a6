// Care beside the sessions of a server: its stores are scrubbed and backed up, and its page of metrics is served.
ghost use Rattle.std.specs.Prelude.{⊤};

use crate::backups::Backups;
use crate::merge_gate::{GateParts, tell_of};
use crate::standard_streams::StandardStreams;
use silt_care::{Finding, Finds, Pace, Schedule, Scrub, View};
use silt_event::{Counter, Facts};
use silt_jobs::{Urgent, offset_of};
use silt_metrics::serve_page;
use silt_server::Cares;
use silt_session::Board;
use silt_shards::{no_facts, plus};
use silt_words::Service;
use std::io::Write;
use std::net::{TcpListener, TcpStream};
use std::sync::Wait;
use std::time::Duration;

/// How many megabytes a second a scrub reads if no number is given.
const RATE: u32 = 20;

/// How many milliseconds a read or a write of the page's client waits.
const CUT_OFF: u64 = 500;

/// Care beside the sessions of a server: scrubs, backups, and the page of metrics.
#[derive(Drop)]
pub struct Care<'a, 'f, 'p, H> {
    rt: &'a H,
    board: &'p Board,
    /// The name of the store's file, or of its set.
    file: &'f str,
    is_set: bool,
    /// After how many hours the next scrub begins, if there are scrubs.
    hours: Option<u32>,
    pace: Pace,
    backups: Backups<'a, 'f, 'p, H>,
    /// Where the page is read, if there is one. An accept does not wait.
    page: Option<TcpListener>,
}

impl<'a, 'f, 'p, H: Wait + StandardStreams> Care<'a, 'f, 'p, H> {
    /// The care that a service asks for, with the listener of its page, if there is one.
    pub fn new(
        rt: &'a H,
        board: &'p Board,
        parts: &'p GateParts,
        service: &Service<'f>,
        page: Option<TcpListener>,
    ) -> Care<'a, 'f, 'p, H> {
        Care {
            rt,
            board,
            file: service.file,
            is_set: service.shards.is_some(),
            hours: service.scrub,
            pace: Pace::new(service.scrub_rate.unwrap_or(RATE)),
            backups: Backups::new(rt, board, parts, service),
            page,
        }
    }

    // Tells people what a scrub found in the store of this number, and where.
    fn tell(&self, shard: u32, finding: Finding, at: Option<u64>) {
        let urgent = Urgent::Scrubbed(self.rt.alloc(), finding, at);
        tell_of(self.rt, self.file, self.is_set.then_some(shard), &urgent);
    }

    // Tells people where the page is, if there is one.
    fn tell_page(&self) {
        let Some(page) = &self.page else {
            return;
        };
        if let Ok(socket) = page.local_addr() {
            let (file, mut people) = (self.file, self.rt.errors());
            let _ = writeln!(
                people,
                "silt: {file}: the page of metrics is at http://{socket}/metrics"
            );
        }
    }

    // The facts of the stores in these views, added up.
    fn facts<V: View>(&self, views: &[V]) -> Facts {
        let mut sum = no_facts();
        for view in views {
            sum = plus(sum, view.facts());
        }
        sum
    }

    // Serves the page to a client, which is cut off if it does not ask for it at once.
    fn serve_client<V: View>(&self, views: &[V], stream: &TcpStream) {
        let limit = Some(Duration::from_millis(CUT_OFF));
        if stream.set_read_timeout(limit).is_err() || stream.set_write_timeout(limit).is_err() {
            return;
        }
        let (mut reader, mut writer) = (stream, stream);
        let (facts, counts) = (self.facts(views), self.board.counts(self.rt));
        serve_page(self.rt.alloc(), &mut reader, &mut writer, &facts, &counts);
    }

    // Serves the page to the next client, if one waits.
    fn serve_next<V: View>(&self, views: &[V]) {
        let Some(page) = &self.page else {
            return;
        };
        if let Ok((stream, _)) = page.accept() {
            self.serve_client(views, &stream);
        }
    }

    // Scrubs each store, in order. Returns whether all were scrubbed whole.
    fn scrub_each<V: View>(&self, views: &[V]) -> bool {
        for (shard, view) in views.iter().enumerate() {
            let scrub = Scrub {
                rt: self.rt,
                view,
                pace: self.pace,
            };
            let mut watch = Watch {
                care: self,
                views,
                shard: u32::try_from(shard).unwrap_or(u32::MAX),
            };
            match scrub.pass(self.rt.alloc(), &mut watch) {
                Ok(scrubbed) if !scrubbed.has_ended => {}
                _ => return false,
            }
        }
        true
    }
}

// Hears of what a scrub of one store finds, and serves the page meanwhile.
#[derive(Drop)]
struct Watch<'w, 'a, 'f, 'p, H, V> {
    care: &'w Care<'a, 'f, 'p, H>,
    views: &'w [V],
    shard: u32,
}

impl<H, V: View> Watch<'_, '_, '_, '_, H, V> {
    // Where the part begins of which something was found.
    fn offset(&self, finding: Finding) -> Option<u64> {
        let (Finding::Damaged(place) | Finding::Unread(place)) = finding;
        let view = self.views.get(self.shard as usize)?;
        let (body, _) = view.named();
        if body.sorted >= 2 {
            return None;
        }
        offset_of(&view.geometry(), body.sorted, place)
    }
}

impl<H: Wait + StandardStreams, V: View> Finds for Watch<'_, '_, '_, '_, H, V> {
    ghost heard = { λ _ _ _. ⊤ };

    ghost has_stopped = { λ _. ⊤ };

    fn found(&mut self, finding: Finding) {
        self.care.board.count(Counter::Findings, 1);
        self.care.tell(self.shard, finding, self.offset(finding));
    }

    // A scrub takes hours. So a backup is written meanwhile.
    fn goes_on(&self) -> bool {
        self.care.serve_next(self.views);
        let patience = Patience {
            care: self.care,
            views: self.views,
        };
        self.care.backups.write_due(self.views, &patience);
        !self.care.board.has_ended()
    }
}

// Serves the page while a backup is written, and has that end with the server.
#[derive(Drop)]
struct Patience<'w, 'a, 'f, 'p, H, V> {
    care: &'w Care<'a, 'f, 'p, H>,
    views: &'w [V],
}

impl<H: Wait + StandardStreams, V: View> Finds for Patience<'_, '_, '_, '_, H, V> {
    ghost heard = { λ _ _ _. ⊤ };

    ghost has_stopped = { λ _. ⊤ };

    fn found(&mut self, _finding: Finding) {}

    fn goes_on(&self) -> bool {
        self.care.serve_next(self.views);
        !self.care.board.has_ended()
    }
}

impl<H: Wait + Sync + StandardStreams> Cares for Care<'_, '_, '_, H> {
    fn care<V: View>(&self, views: &[V]) {
        if self.hours.is_none() && self.page.is_none() && !self.backups.are_written() {
            return;
        }
        self.tell_page();
        let mut schedule = Schedule::new(self.rt, self.hours);
        for _ in self.rt.forever() {
            let watch = Watch {
                care: self,
                views,
                shard: 0,
            };
            if !schedule.comes(self.rt, &watch) {
                return;
            }
            if self.scrub_each(views) {
                self.board.count(Counter::Scrubs, 1);
            }
        }
        unreachable!()
    }
}
