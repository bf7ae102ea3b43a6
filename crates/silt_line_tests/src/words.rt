// Which command lines name which job with which options, and which name none. The contract cites clap's own definitions,
// so these calls are tried.

use silt_words::{Job, PlanRequest, RunOptions, Service, WordsError, read_words};
use std::process::Abort;
use std::test::Fail;

fn words<S: AllocGlobal>(rt: &S, call: &str) -> Result<Vec<String>, Fail> {
    let mut words = Vec::new(rt.alloc());
    for word in call.split(' ') {
        words.push(String::from_str(rt.alloc(), word)?)?;
    }
    Ok(words)
}

// The service that a command line names.
fn service_named(job: Result<Job<'_>, WordsError>) -> Option<Service<'_>> {
    match job {
        Ok(Job::Serve(service)) => Some(service),
        _ => None,
    }
}

fn serves<S: AllocGlobal + Abort>(
    rt: &S,
    call: &str,
    port: u16,
    audit: Option<u32>,
    sessions: Option<u32>,
) -> Result<(), Fail> {
    let words = words(rt, call)?;
    let service = service_named(read_words(rt.alloc(), words.as_slice()));
    assert_eq!(rt; service.map(|service| service.file), Some("disk"));
    assert_eq!(rt; service.map(|service| service.port), Some(port));
    assert_eq!(rt; service.map(|service| service.audit), Some(audit));
    assert_eq!(rt; service.map(|service| service.sessions), Some(sessions));
    Ok(())
}

#[test]
fn reads_the_options_in_any_order(rt: HostRuntime) -> Result<(), Fail> {
    for call in [
        "silt serve disk 7000 --audit 100 --sessions 32",
        "silt serve disk 7000 --sessions 32 --audit 100",
        "silt serve --audit 100 --sessions 32 disk 7000",
        "silt serve --sessions 32 disk --audit 100 7000",
        "silt serve disk --sessions=32 7000 --audit=100",
        "silt serve --audit 100 --sessions 32 -- disk 7000",
    ] {
        serves(&rt, call, 7000, Some(100), Some(32))?;
    }
    Ok(())
}

#[test]
fn reports_an_option_that_is_not_given(rt: HostRuntime) -> Result<(), Fail> {
    serves(&rt, "silt serve disk 0", 0, None, None)?;
    serves(&rt, "silt serve disk 65535 --audit 0", 65535, Some(0), None)?;
    serves(&rt, "silt serve disk 1 --sessions 1", 1, None, Some(1))?;
    serves(&rt, "silt serve disk 1 --sessions 0", 1, None, None)
}

#[test]
fn takes_the_greatest_numbers(rt: HostRuntime) -> Result<(), Fail> {
    let call = "silt serve disk 0000065535 --audit 4294967295 --sessions 4294967295";
    serves(&rt, call, 65535, Some(4294967295), Some(4294967295))
}

// Whether a command line names a service that closes connections after this time without a byte.
fn is_idle_after<S: AllocGlobal + Abort>(
    rt: &S,
    call: &str,
    idle: Option<u32>,
) -> Result<(), Fail> {
    let words = words(rt, call)?;
    let service = service_named(read_words(rt.alloc(), words.as_slice()));
    assert_eq!(rt; service.map(|service| service.idle), Some(idle));
    Ok(())
}

#[test]
fn reads_how_long_a_connection_may_be_silent(rt: HostRuntime) -> Result<(), Fail> {
    is_idle_after(&rt, "silt serve disk 0", None)?;
    is_idle_after(&rt, "silt serve disk 0 --idle 0", None)?;
    is_idle_after(&rt, "silt serve --idle=1 disk 0", Some(1))?;
    is_idle_after(&rt, "silt serve disk --sessions 2 0 --idle 60", Some(60))
}

// Whether a command line names a service in which a command waits so long for room.
fn waits_for<S: AllocGlobal + Abort>(rt: &S, call: &str, wait: Option<u32>) -> Result<(), Fail> {
    let words = words(rt, call)?;
    let service = service_named(read_words(rt.alloc(), words.as_slice()));
    assert_eq!(rt; service.map(|service| service.wait), Some(wait));
    Ok(())
}

#[test]
fn reads_how_long_a_command_may_wait(rt: HostRuntime) -> Result<(), Fail> {
    waits_for(&rt, "silt serve disk 0", None)?;
    waits_for(&rt, "silt serve disk 0 --idle 5", None)?;
    waits_for(&rt, "silt serve disk 0 --wait 0", Some(0))?;
    waits_for(&rt, "silt serve --wait=1 disk 0", Some(1))?;
    waits_for(
        &rt,
        "silt serve disk --idle 5 0 --wait 4294967295",
        Some(4_294_967_295),
    )
}

// Whether a command line names a service with batches.
fn is_pipelined<S: AllocGlobal + Abort>(rt: &S, call: &str, pipeline: bool) -> Result<(), Fail> {
    let words = words(rt, call)?;
    let service = service_named(read_words(rt.alloc(), words.as_slice()));
    assert_eq!(rt; service.map(|service| service.pipeline), Some(pipeline));
    Ok(())
}

#[test]
fn reads_whether_a_server_makes_batches(rt: HostRuntime) -> Result<(), Fail> {
    is_pipelined(&rt, "silt serve disk 0", false)?;
    is_pipelined(
        &rt,
        "silt serve disk 0 --idle 1 --audit 2 --sessions 3",
        false,
    )?;
    is_pipelined(&rt, "silt serve disk 0 --pipeline", true)?;
    is_pipelined(&rt, "silt serve --pipeline disk 0", true)?;
    is_pipelined(&rt, "silt serve disk --pipeline -- 0", true)?;
    is_pipelined(
        &rt,
        "silt serve disk --sessions 1 --pipeline --idle=2 0 --audit 3",
        true,
    )
}

// Whether a command line names a service of Redis clients.
fn is_for_redis<S: AllocGlobal + Abort>(rt: &S, call: &str, resp: bool) -> Result<(), Fail> {
    let words = words(rt, call)?;
    let service = service_named(read_words(rt.alloc(), words.as_slice()));
    assert_eq!(rt; service.map(|service| service.resp), Some(resp));
    Ok(())
}

#[test]
fn reads_which_protocol_a_server_speaks(rt: HostRuntime) -> Result<(), Fail> {
    is_for_redis(&rt, "silt serve disk 0 --pipeline", false)?;
    is_for_redis(&rt, "silt serve disk 0 --resp", true)?;
    is_for_redis(&rt, "silt serve --resp disk 0 --pipeline --idle 1", true)
}

/// A job on a file, by the first letter of its word, and whether its flag is given.
#[derive(Clone, Copy)]
struct OnFile<'a> {
    letter: char,
    file: &'a str,
    is_given: bool,
}

// The job on a file that a command line names.
fn on_file(job: Result<Job<'_>, WordsError>) -> Option<OnFile<'_>> {
    let (letter, file, is_given) = match job {
        Ok(Job::Format { file, options, .. }) => ('f', file, options.force),
        Ok(Job::Run { file, options }) => ('r', file, options.tend),
        Ok(Job::Tend { file, .. }) => ('t', file, false),
        Ok(Job::Check { file }) => ('c', file, false),
        _ => return None,
    };
    Some(OnFile {
        letter,
        file,
        is_given,
    })
}

fn has_flag<S: AllocGlobal + Abort>(
    rt: &S,
    call: &str,
    letter: char,
    is_given: bool,
) -> Result<(), Fail> {
    let words = words(rt, call)?;
    let job = on_file(read_words(rt.alloc(), words.as_slice()));
    assert_eq!(rt; job.map(|job| job.file), Some("disk"));
    assert_eq!(rt; job.map(|job| job.letter), Some(letter));
    assert_eq!(rt; job.map(|job| job.is_given), Some(is_given));
    Ok(())
}

#[test]
fn reads_the_options_without_a_number(rt: HostRuntime) -> Result<(), Fail> {
    has_flag(&rt, "silt format disk 2 2 4 2 2 8", 'f', false)?;
    has_flag(&rt, "silt format disk 2 2 4 2 2 8 --force", 'f', true)?;
    has_flag(&rt, "silt format --force disk 2 2 4 2 2 8", 'f', true)?;
    has_flag(&rt, "silt format disk --force 2 2 4 2 2 8", 'f', true)?;
    has_flag(&rt, "silt format --force -- disk 2 2 4 2 2 8", 'f', true)?;
    has_flag(&rt, "silt run disk", 'r', false)?;
    has_flag(&rt, "silt run disk --tend", 'r', true)?;
    has_flag(&rt, "silt run --tend disk", 'r', true)?;
    has_flag(&rt, "silt tend disk", 't', false)?;
    has_flag(&rt, "silt check disk", 'c', false)
}

// Whether a command line names a formatting that gives a file its length alone.
fn is_sparse<S: AllocGlobal + Abort>(rt: &S, call: &str, sparse: bool) -> Result<(), Fail> {
    let words = words(rt, call)?;
    let options = match read_words(rt.alloc(), words.as_slice()) {
        Ok(Job::Format { options, .. }) => Some(options),
        _ => None,
    };
    assert_eq!(rt; options.map(|options| options.sparse), Some(sparse));
    Ok(())
}

#[test]
fn reads_whether_a_file_is_sparse(rt: HostRuntime) -> Result<(), Fail> {
    is_sparse(&rt, "silt format disk 2 2 4 2 2 8", false)?;
    is_sparse(&rt, "silt format disk 2 2 4 2 2 8 --force", false)?;
    is_sparse(&rt, "silt format disk 2 2 4 2 2 8 --sparse", true)?;
    is_sparse(&rt, "silt format --sparse disk 2 2 4 2 2 8 --force", true)
}

fn runs_with<S: AllocGlobal + Abort>(rt: &S, call: &str, expected: RunOptions) -> Result<(), Fail> {
    let words = words(rt, call)?;
    let options = match read_words(rt.alloc(), words.as_slice()) {
        Ok(Job::Run { options, .. }) => Some(options),
        _ => None,
    };
    assert_eq!(rt; options, Some(expected));
    Ok(())
}

#[test]
fn reads_the_options_of_a_run(rt: HostRuntime) -> Result<(), Fail> {
    let plain = RunOptions {
        tend: false,
        strict: false,
        merge_at: None,
    };
    let strict = RunOptions {
        strict: true,
        ..plain
    };
    let tending = RunOptions {
        tend: true,
        ..plain
    };
    let both = RunOptions {
        tend: true,
        ..strict
    };
    let merging = RunOptions {
        merge_at: Some(3),
        ..tending
    };
    runs_with(&rt, "silt run disk", plain)?;
    runs_with(&rt, "silt run disk --strict", strict)?;
    runs_with(&rt, "silt run --tend disk", tending)?;
    runs_with(&rt, "silt run --strict disk --tend", both)?;
    runs_with(&rt, "silt run --tend --strict -- disk", both)?;
    runs_with(&rt, "silt run --merge-at 3 disk --tend", merging)
}

fn plans<S: AllocGlobal + Abort>(rt: &S, call: &str, expected: PlanRequest) -> Result<(), Fail> {
    let words = words(rt, call)?;
    let request = match read_words(rt.alloc(), words.as_slice()) {
        Ok(Job::Plan(request)) => Some(request),
        _ => None,
    };
    assert_eq!(rt; request, Some(expected));
    Ok(())
}

#[test]
fn reads_what_to_plan_for(rt: HostRuntime) -> Result<(), Fail> {
    let unlimited = PlanRequest {
        keys: 1_000_000,
        value_len: 100,
        memory: None,
        merge_writes: None,
    };
    plans(&rt, "silt plan 1000000 100", unlimited)?;
    let limited = PlanRequest {
        memory: Some(4_294_967_295),
        ..unlimited
    };
    plans(&rt, "silt plan 1000000 100 --memory 4294967295", limited)?;
    plans(&rt, "silt plan --memory=4294967295 1000000 100", limited)?;
    let bounded = PlanRequest {
        merge_writes: Some(3),
        ..limited
    };
    plans(
        &rt,
        "silt plan 1000000 --memory 4294967295 100 --merge-writes=3",
        bounded,
    )
}

fn names_no_job<S: AllocGlobal + Abort>(rt: &S, call: &str) -> Result<(), Fail> {
    let words = words(rt, call)?;
    assert_eq!(rt;
        read_words(rt.alloc(), words.as_slice()).err(),
        Some(WordsError::Usage)
    );
    Ok(())
}

#[test]
fn refuses_what_names_no_service(rt: HostRuntime) -> Result<(), Fail> {
    for call in [
        "silt serve",
        "silt serve disk",
        "silt serve disk 7000 7001",
        "silt serve 7000 disk",
        "silt serve disk 65536",
        "silt serve disk 4294967296",
        "silt serve disk 00000007000",
        "silt serve disk +7000",
        "silt serve disk -7000",
        "silt serve disk ",
        "silt serve disk 7000 --help",
        "silt --audit 100 serve disk 7000",
        "silt run disk --audit 100",
    ] {
        names_no_job(&rt, call)?;
    }
    Ok(())
}

#[test]
fn refuses_bad_options(rt: HostRuntime) -> Result<(), Fail> {
    for call in [
        "silt serve disk 7000 --audit",
        "silt serve disk 7000 --audit=",
        "silt serve disk 7000 --audit --sessions 32",
        "silt serve disk 7000 --audit +100",
        "silt serve disk 7000 --audit -1",
        "silt serve disk 7000 --audit 4294967296",
        "silt serve disk 7000 --audit 00000000100",
        "silt serve disk 7000 --audit 100 --audit 100",
        "silt serve disk 7000 --audit 100 200",
        "silt serve disk 7000 --sessions",
        "silt serve disk 7000 --sessions x",
        "silt serve disk 7000 --sessions 4294967296",
        "silt serve disk 7000 --sessions 32 --sessions=33",
        "silt serve disk 7000 -- --audit 100",
        "silt serve disk 7000 --audits 100",
        "silt serve disk 7000 --aud 100",
        "silt serve disk 7000 -a 100",
    ] {
        names_no_job(&rt, call)?;
    }
    Ok(())
}

#[test]
fn refuses_options_that_are_not_the_jobs(rt: HostRuntime) -> Result<(), Fail> {
    for call in [
        "silt format disk 2 2 4 2 2 8 --force --force",
        "silt format disk 2 2 4 2 2 8 --force=true",
        "silt format disk 2 2 4 2 2 8 --force=",
        "silt format disk 2 2 4 2 2 8 -- --force",
        "silt format disk 2 2 4 2 2 8 --sparse --sparse",
        "silt format disk 2 2 4 2 2 8 --tend",
        "silt run disk --sparse",
        "silt --force format disk 2 2 4 2 2 8",
        "silt run disk --force",
        "silt run disk --tend --tend",
        "silt run disk -t",
        "silt run disk --strict --strict",
        "silt run disk --strict=true",
        "silt run disk --wait 1",
        "silt tend disk --strict",
        "silt check disk --strict",
        "silt script 2 2 4 2 2 8 --strict",
        "silt run --tend",
        "silt tend",
        "silt tend disk --tend",
        "silt tend disk disk",
        "silt check disk --tend",
        "silt plan",
        "silt plan 1000",
        "silt plan 1000 100 100",
        "silt plan 1000 100 --memory",
        "silt plan 1000 100 --memory 4294967296",
        "silt plan 1000 100 --merge-writes",
        "silt plan 1000 100 --merge-writes 0",
        "silt plan 1000 100 --merge-writes 4294967296",
        "silt plan 1_000 100",
        "silt plan 1,000 100",
        "silt run disk --idle 1",
        "silt run disk --pipeline",
        "silt run disk --merge-at 3",
        "silt run disk --tend --merge-at 0",
    ] {
        names_no_job(&rt, call)?;
    }
    Ok(())
}

#[test]
fn refuses_options_that_no_service_has(rt: HostRuntime) -> Result<(), Fail> {
    for call in [
        "silt serve disk 0 --idle",
        "silt serve disk 0 --idle x",
        "silt serve disk 0 --idle 1 --idle 2",
        "silt serve disk 0 --strict",
        "silt serve disk 0 --wait",
        "silt serve disk 0 --wait x",
        "silt serve disk 0 --wait -1",
        "silt serve disk 0 --wait 4294967296",
        "silt serve disk 0 --wait 1 --wait=1",
        "silt serve disk 0 --pipeline --pipeline",
        "silt serve disk 0 --resp --resp",
        "silt serve disk 0 --resp=true",
        "silt run disk --resp",
        "silt serve disk 0 --pipeline=true",
        "silt serve disk 0 --pipeline=",
        "silt serve disk 0 -- --pipeline",
        "silt serve disk --pipeline",
        "silt serve disk 0 --pipe",
        "silt --pipeline serve disk 0",
    ] {
        names_no_job(&rt, call)?;
    }
    Ok(())
}
