// The program's work, over any source of disks, reader and writer.
ghost use Rattle.silt.specs.Programs.{RefusesWords};

use crate::clash::{clash_of, refuse_clash};
use crate::client_text::Call;
use crate::machine::Machine;
use crate::random_bytes::random_set;
use crate::service::serve_file;
use crate::set_service::serve_set;
use crate::standard_streams::StandardStreams;
use silt_device::DiskSources;
use silt_disk::Disk;
use silt_jobs::{
    Ended, Ends, KeepsLines, KeepsTally, NewSet, NewStore, SetFiles, ShardJob, StreamError, Tells,
    Tended, Watched, Why, check_file, do_each, dump_file, dump_set, format_file, format_set,
    run_file, run_script, run_set, tend_file, write_plan, write_set_plan,
};
use silt_store_set::Refusal;
use silt_words::{Job, Service, SetJob, SetWork, WordsError, read_words};
use std::alloc::Global;
use std::io::Write;
use std::net::{Net, TcpListener, TcpStream};
use std::sync::Wait;
use std::thread::Threads;

impl<H, S> Machine<'_, H, S>
where
    H: Net<Listener = TcpListener, Stream = TcpStream> + Threads + Wait + Sync + StandardStreams,
    S: DiskSources,
    S::Disk: Tended + Watched,
{
    ghost use Rattle.std.specs.Prelude.{◌≡◌, map, option_map, string_bytes};
    ghost use Rattle.silt_jobs.specs.Ended.{HasFailed};
    ghost use Rattle.silt.specs.Programs.{Answers, DoesJob, DoesServe, DoesSetJob, EndsJob, FormatsNamed};

    /// Does the job that the words name. Returns the name of its file, if it has one, and how it ended, with the status 0 if it is
    /// done, 1 if it is refused, 2 if the words name no job, and 3 if it is a strict run and a line was refused. The first word is
    /// the program's own. A job is refused if one of its files is a standard stream, before anything is opened, read or printed.
    pub fn do_words<'a, R: KeepsLines, W: KeepsTally, T: Tells>(
        self,
        words: &'a [String],
        reader: &mut R,
        writer: &mut W,
        people: &mut T,
    ) -> (Option<&'a str>, Ends<S::Error, <S::Disk as Disk>::Fault>)
        ensures { Answers S.Disk.Disk (HasFailed S.Disk.Watched.kept_read S.Disk.Watched.last_failure) S.DiskSource self.entry.source
            W.contents W.kept_error W.kept_tally T.told people.old people.new (H.begins self.entry.rt.now) (H.are_file self.entry.rt.now)
            (map string_bytes words.entry.now) (option_map (λ file. file.now) result.0) (R.kept_error reader.new) result.1 (R.remaining reader.old) (R.remaining reader.new) writer.old writer.new }
    {
        match read_words(self.rt.alloc(), words) {
            Ok(job) => (job.file(), self.answer(job, reader, writer, people)),
            Err(error) => {
                let ended = refuse_words(self.rt.alloc(), error, writer);
                (None, Ends::of(self.rt.alloc(), ended))
            }
        }
    }

    // Does a job, unless one of its files is a standard stream.
    fn answer<R: KeepsLines, W: KeepsTally, T: Tells>(
        self,
        job: Job<'_>,
        reader: &mut R,
        writer: &mut W,
        people: &mut T,
    ) -> Ends<S::Error, <S::Disk as Disk>::Fault>
        ensures { EndsJob S.Disk.Disk (HasFailed S.Disk.Watched.kept_read S.Disk.Watched.last_failure) S.DiskSource self.entry.source
            W.contents W.kept_error W.kept_tally T.told people.old people.new (H.begins self.entry.rt.now) (H.are_file self.entry.rt.now)
            job.entry (R.kept_error reader.new) result (R.remaining reader.old) (R.remaining reader.new) writer.old writer.new }
    {
        let alloc = self.rt.alloc();
        match clash_of(self.rt, &job) {
            Ok(Some(clash)) => Ends::of(alloc, refuse_clash(alloc, &clash, writer)),
            Ok(None) => self.do_job(job, reader, writer, people),
            Err(_) => {
                let why = Why::Refused(Refusal::NoMemory, None);
                Ends::of(alloc, Ended::refuse(alloc, why, writer))
            }
        }
    }

    // Does a job.
    fn do_job<R: KeepsLines, W: KeepsTally, T: Tells>(
        self,
        job: Job<'_>,
        reader: &mut R,
        writer: &mut W,
        people: &mut T,
    ) -> Ends<S::Error, <S::Disk as Disk>::Fault>
        ensures { DoesJob S.Disk.Disk (HasFailed S.Disk.Watched.kept_read S.Disk.Watched.last_failure) S.DiskSource self.entry.source
            W.contents W.kept_error W.kept_tally T.told people.old people.new (H.begins self.entry.rt.now)
            job.entry (R.kept_error reader.new) result (R.remaining reader.old) (R.remaining reader.new) writer.old writer.new }
    {
        let alloc = self.rt.alloc();
        match job {
            Job::Format {
                file,
                numbers,
                options,
            } => {
                let asked = NewStore {
                    file,
                    numbers,
                    options,
                };
                let (_, ended) = format_file(alloc, self.source, &asked, writer, people);
                Ends::of(alloc, ended)
            }
            Job::Script(numbers) => Ends::of(alloc, run_script(alloc, &numbers, reader, writer)),
            Job::Run { file, options } => {
                let (_, ended) = run_file(alloc, self.source, file, options, reader, writer);
                Ends::of(alloc, ended)
            }
            Job::Tend { file, merge_at } => {
                Ends::of(
                    alloc,
                    tend_file(alloc, self.source, file, merge_at, writer).1,
                )
            }
            Job::Check { file } => Ends::of(alloc, check_file(alloc, self.source, file, writer).1),
            Job::Dump { file } => Ends::of(alloc, dump_file(alloc, self.source, file, writer).1),
            Job::Set(job) => self.do_set_job(&job, reader, writer, people),
            Job::Plan(request) => Ends::of(alloc, write_plan(alloc, &request, writer)),
            Job::PlanSet { shards, request } => {
                Ends::of(alloc, write_set_plan(alloc, shards, &request, writer))
            }
            Job::Serve(service) => Ends::of(alloc, self.serve(&service, writer, people)),
            Job::Stop(contact) => {
                Ends::of(alloc, self.ask_server(Call::Stop, &contact, writer, people))
            }
            Job::Info(contact) => {
                Ends::of(alloc, self.ask_server(Call::Info, &contact, writer, people))
            }
        }
    }

    // Does a job on the files of a set.
    fn do_set_job<R: KeepsLines, W: KeepsTally, T: Tells>(
        self,
        job: &SetJob<'_>,
        reader: &mut R,
        writer: &mut W,
        people: &mut T,
    ) -> Ends<S::Error, <S::Disk as Disk>::Fault>
        ensures { DoesSetJob S.Disk.Disk (HasFailed S.Disk.Watched.kept_read S.Disk.Watched.last_failure) S.DiskSource self.entry.source
            W.contents W.kept_error W.kept_tally T.told people.old people.new (H.begins self.entry.rt.now)
            job.now.file.now job.now.shards job.now.work (R.kept_error reader.new) result (R.remaining reader.old) (R.remaining reader.new) writer.old writer.new }
    {
        let alloc = self.rt.alloc();
        let files = SetFiles {
            name: job.file,
            shards: job.shards,
        };
        match job.work {
            SetWork::Format { numbers, options } => {
                let store = NewStore {
                    file: job.file,
                    numbers,
                    options,
                };
                let ended = self.format_named(store, job.shards, writer, people);
                Ends::of(alloc, ended)
            }
            SetWork::Run(options) => {
                let ended = run_set(alloc, self.source, &files, options, reader, writer);
                Ends::of(alloc, ended)
            }
            SetWork::Tend(merge_at) => do_each(
                alloc,
                self.source,
                &files,
                ShardJob::Tend(merge_at),
                writer,
            ),
            SetWork::Check => do_each(alloc, self.source, &files, ShardJob::Check, writer),
            SetWork::Dump => Ends::of(alloc, dump_set(alloc, self.source, &files, writer)),
        }
    }

    // Serves the store in a file, or the stores in the files of a set.
    fn serve<W: Write, T: Tells>(
        self,
        service: &Service<'_>,
        writer: &mut W,
        people: &mut T,
    ) -> Ended<S::Error, <S::Disk as Disk>::Fault>
        ensures { DoesServe S.Disk.Disk (HasFailed S.Disk.Watched.kept_read S.Disk.Watched.last_failure) S.DiskSource self.entry.source service.now
            (T.told people.old people.new) (people.new ≡ people.old)
            service.now.shards result (W.contents writer.old) (W.contents writer.new) }
    {
        match service.shards {
            None => serve_file(self.rt, self.source, service, writer, people).1,
            Some(shards) => serve_set(self.rt, self.source, shards, service, writer, people).1,
        }
    }

    // Makes an empty set of so many shards, with random bytes for its name, unless the system gives none.
    fn format_named<W: Write, T: Tells>(
        self,
        store: NewStore<'_>,
        shards: u32,
        writer: &mut W,
        people: &mut T,
    ) -> Ended<S::Error, <S::Disk as Disk>::Fault>
        ensures { FormatsNamed S.Disk.Disk S.DiskSource self.entry.source T.told people.old people.new (H.begins self.entry.rt.now) store.entry.file.now store.entry.numbers store.entry.options shards
            result (W.contents writer.old) (W.contents writer.new) }
    {
        match random_set(self.rt) {
            Ok(set) => {
                let asked = NewSet { store, shards, set };
                format_set(self.rt.alloc(), self.source, &asked, writer, people)
            }
            Err(error) => Ended::refuse(
                self.rt.alloc(),
                Why::NoRandom(StreamError { error }),
                writer,
            ),
        }
    }
}

/// Refuses words that name no job, or that were not read since memory ran out.
pub fn refuse_words<E: Drop, F: Drop, W: Write>(
    alloc: Global,
    error: WordsError,
    writer: &mut W,
) -> Ended<E, F>
    ensures { RefusesWords error result (W.contents writer.old) (W.contents writer.new) }
{
    match error {
        WordsError::Usage => Ended::refuse(alloc, Why::NoJob, writer),
        WordsError::NoMemory => {
            Ended::refuse(alloc, Why::Refused(Refusal::NoMemory, None), writer)
        }
    }
}
