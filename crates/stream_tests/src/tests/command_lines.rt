//! Command lines: what they ask for, and what is said of one that is refused.

use nfs_server::{Exit, Network, Options, Streams, Transport, arguments, configure};
use std::alloc::Global;
use std::env::FillError;
use std::process::Abort;
use std::rt::Env;
use std::test::Fail;

const SERVE: [&str; 4] = ["nfsd", "--stdio", "--export", "/data,rw,*"];

/// The words, with more behind them.
fn with<'a>(alloc: Global, words: &[&'a str], more: &[&'a str]) -> Result<Vec<&'a str>, Fail> {
    let mut all = words.to_vec(alloc)?;
    all.extend_from_slice(more)?;
    Ok(all)
}

/// Whether the program ends with this status, and a text that begins so.
fn tells(alloc: Global, exit: &Exit, status: u8, beginning: &str) -> Result<bool, Fail> {
    let text = exit.to_string(alloc)?;
    Ok(exit.status() == status && text.as_str().starts_with(beginning))
}

/// Whether the words are refused with this status, by a text that begins so.
fn is_refused(alloc: Global, words: &[&str], status: u8, beginning: &str) -> Result<bool, Fail> {
    match configure(alloc, words) {
        Ok(options) => {
            drop(options);
            Ok(false)
        }
        Err(exit) => tells(alloc, &exit, status, beginning),
    }
}

/// What the words ask for.
fn options(alloc: Global, words: &[&str]) -> Result<Options, Fail> {
    match configure(alloc, words) {
        Ok(options) => Ok(options),
        Err(exit) => {
            drop(exit);
            Err(Fail::from("options"))
        }
    }
}

/// Whether the words are taken.
fn is_taken(alloc: Global, words: &[&str]) -> bool {
    match configure(alloc, words) {
        Ok(options) => {
            drop(options);
            true
        }
        Err(exit) => {
            drop(exit);
            false
        }
    }
}

fn are_defaults(rt: &impl Abort, options: &Options) {
    assert_eq!(rt; options.start, None);
    assert_eq!(rt; options.clock, None);
    assert!(rt; options.host.text().as_slice() == b"127.0.0.1".as_slice());
    assert_eq!(rt; options.bytes, 1_099_511_627_776);
    assert_eq!(rt; options.era_records, 65_536);
    assert_eq!(rt; options.capacity, 1024);
    let list = options.exports.list();
    assert_eq!(rt; list.len(), 1);
    assert!(rt; list[0].path.as_slice() == b"/data".as_slice());
    assert!(rt; !list[0].read_only);
    assert_eq!(rt; list[0].hosts.len(), 1);
    assert!(rt; list[0].hosts[0].as_slice() == b"*".as_slice());
}

#[test]
fn the_defaults(rt: HostRuntime) -> Result<(), Fail> {
    let options = options(rt.alloc(), &SERVE)?;
    are_defaults(&rt, &options);
    Ok(())
}

/// Every how many seconds the counts of standard streams are told, where the words ask for these.
fn stats_of_streams(alloc: Global, words: &[&str]) -> Result<Option<u64>, Fail> {
    let options = options(alloc, words)?;
    let stats = match &options.transport {
        Transport::Stdio(Streams { stats }) => Some(*stats),
        Transport::Network(_) => None,
    };
    drop(options);
    Ok(stats)
}

/// Counts are told of standard streams where that is asked for.
#[test]
fn counts_of_standard_streams(rt: HostRuntime) -> Result<(), Fail> {
    let silent = stats_of_streams(rt.alloc(), &SERVE)?;
    assert_eq!(rt; silent, Some(0));
    let words = with(rt.alloc(), &SERVE, &["--stats", "60"])?;
    let told = stats_of_streams(rt.alloc(), &words)?;
    assert_eq!(rt; told, Some(60));
    Ok(())
}

const EACH_OPTION: [&str; 13] = [
    "nfsd",
    "--host=10.0.0.1",
    "--start",
    "18446744073709551615",
    "--export=/,ro,10.0.0.1,10.0.0.2",
    "--clock",
    "4294967295",
    "--bytes",
    "5",
    "--era",
    "6",
    "--cache",
    "7",
];

fn are_as_given(rt: &impl Abort, options: &Options) {
    assert_eq!(rt; options.start, Some(u64::MAX));
    assert_eq!(rt; options.clock, Some(u32::MAX));
    assert!(rt; options.host.text().as_slice() == b"10.0.0.1".as_slice());
    assert_eq!(rt; options.bytes, 5);
    assert_eq!(rt; options.era_records, 6);
    assert_eq!(rt; options.capacity, 7);
    let list = options.exports.list();
    assert_eq!(rt; list.len(), 1);
    assert!(rt; list[0].path.as_slice() == b"/".as_slice());
    assert!(rt; list[0].read_only);
    assert_eq!(rt; list[0].hosts.len(), 2);
    assert!(rt; list[0].hosts[1].as_slice() == b"10.0.0.2".as_slice());
}

#[test]
fn each_option(rt: HostRuntime) -> Result<(), Fail> {
    let words = with(rt.alloc(), &EACH_OPTION, &["--stdio"])?;
    let options = options(rt.alloc(), &words)?;
    are_as_given(&rt, &options);
    Ok(())
}

const TWO_EXPORTS: [&str; 6] = [
    "nfsd",
    "--export",
    "/b,ro,10.0.0.1",
    "--stdio",
    "--export",
    "/a,rw,*",
];

fn are_in_order(rt: &impl Abort, options: &Options) {
    let list = options.exports.list();
    assert_eq!(rt; list.len(), 2);
    assert!(rt; list[0].path.as_slice() == b"/b".as_slice());
    assert!(rt; list[0].read_only);
    assert!(rt; list[1].path.as_slice() == b"/a".as_slice());
    assert!(rt; !list[1].read_only);
}

#[test]
fn exports_in_the_order_given(rt: HostRuntime) -> Result<(), Fail> {
    let options = options(rt.alloc(), &TWO_EXPORTS)?;
    are_in_order(&rt, &options);
    Ok(())
}

/// Whether a host of so many bytes is taken.
fn takes_host(alloc: Global, length: usize) -> Result<bool, Fail> {
    let host = "h".repeat(alloc, length)?;
    let words = with(alloc, &SERVE, &["--host", host.as_str()])?;
    Ok(is_taken(alloc, &words))
}

/// Whether one of so many bytes is refused for its length.
fn refuses_host(alloc: Global, length: usize) -> Result<bool, Fail> {
    let host = "h".repeat(alloc, length)?;
    let words = with(alloc, &SERVE, &["--host", host.as_str()])?;
    let told = "error: the value of '--host <TEXT>' must have 1 to 255 bytes\n\nUsage: nfsd ";
    is_refused(alloc, &words, 2, told)
}

#[test]
fn a_host_has_1_to_255_bytes(rt: HostRuntime) -> Result<(), Fail> {
    assert!(rt; takes_host(rt.alloc(), 255)?);
    assert!(rt; refuses_host(rt.alloc(), 256)?);
    assert!(rt; refuses_host(rt.alloc(), 0)?);
    Ok(())
}

#[test]
fn the_bounds_of_eras_and_of_kept_replies(rt: HostRuntime) -> Result<(), Fail> {
    for more in [
        ["--era", "1"],
        ["--era", "65536"],
        ["--cache", "1"],
        ["--cache", "65536"],
    ] {
        let words = with(rt.alloc(), &SERVE, &more)?;
        assert!(rt; is_taken(rt.alloc(), &words), "{} {}", more[0], more[1]);
    }
    Ok(())
}

const ERA: &str = "error: the value of '--era <N>' must be 1 to 65536\n\nUsage: nfsd ";

const CACHE: &str = "error: the value of '--cache <N>' must be 1 to 65536\n\nUsage: nfsd ";

const WORKERS: &str = "error: the value of '--workers <N>' must be 1 to 64\n\nUsage: nfsd ";

const CONNECTIONS: &str =
    "error: the value of '--connections <N>' must be 1 to 1024\n\nUsage: nfsd ";

const TWO_TRANSPORTS: &str =
    "error: the argument '--stdio' cannot be used with '--tcp <ADDR:PORT>' or '--udp <ADDR:PORT>'\n";

const CONTROL_OF_STDIO: &str = "error: the argument '--stdio' cannot be used with '--control'\n";

#[test]
fn refused_command_lines(rt: HostRuntime) -> Result<(), Fail> {
    let alloc = rt.alloc();
    let refused = [
        (
            ["--stdio"].as_slice(),
            "error: the argument '--stdio' cannot be used multiple times\n",
        ),
        (
            ["--start", "1", "--start", "1"].as_slice(),
            "error: the argument '--start <N>' cannot be used multiple times\n",
        ),
        (
            ["--start", "18446744073709551616"].as_slice(),
            "error: invalid value '18446744073709551616' for '--start <N>': ",
        ),
        (
            ["--clock", "4294967296"].as_slice(),
            "error: invalid value '4294967296' for '--clock <S>': ",
        ),
        (
            ["--bytes", "0x10"].as_slice(),
            "error: invalid value '0x10' for '--bytes <N>': ",
        ),
        (
            ["--era", "18446744073709551616"].as_slice(),
            "error: invalid value '18446744073709551616' for '--era <N>': ",
        ),
        (
            ["--cache", "18446744073709551616"].as_slice(),
            "error: invalid value '18446744073709551616' for '--cache <N>': ",
        ),
        (["--era", "0"].as_slice(), ERA),
        (["--era", "65537"].as_slice(), ERA),
        (["--cache", "0"].as_slice(), CACHE),
        (["--cache", "65537"].as_slice(), CACHE),
        // The era is looked at first.
        (["--cache", "0", "--era", "0"].as_slice(), ERA),
        (
            ["--start"].as_slice(),
            "error: a value is required for '--start <N>' but none was supplied\n",
        ),
        (["--workers", "0"].as_slice(), WORKERS),
        (["--workers", "65"].as_slice(), WORKERS),
        (["--connections", "0"].as_slice(), CONNECTIONS),
        (["--connections", "1025"].as_slice(), CONNECTIONS),
        (["--tcp", "127.0.0.1:2049"].as_slice(), TWO_TRANSPORTS),
        (["--udp", "127.0.0.1:2049"].as_slice(), TWO_TRANSPORTS),
        (["--control"].as_slice(), CONTROL_OF_STDIO),
        (
            ["--tcp", "127.0.0.1:2049", "--control", "--control"].as_slice(),
            "error: the argument '--control' cannot be used multiple times\n",
        ),
        (
            ["more"].as_slice(),
            "error: unexpected argument 'more' found\n",
        ),
    ];
    for (more, beginning) in refused {
        let words = with(alloc, &SERVE, more)?;
        assert!(rt; is_refused(alloc, &words, 2, beginning)?, "{beginning}");
    }
    let missing =
        "error: the following required arguments were not provided:\n  --export <PATH,MODE,HOST[,HOST..]>\n";
    assert!(rt; is_refused(alloc, &["nfsd", "--stdio"], 2, missing)?);
    Ok(())
}

#[test]
fn help_and_version_are_no_fault(rt: HostRuntime) -> Result<(), Fail> {
    let help =
        "Serve files by NFS version 3\n\nUsage: nfsd [OPTIONS] --export <PATH,MODE,HOST[,HOST..]>\n";
    assert!(rt; is_refused(rt.alloc(), &["nfsd", "--help"], 0, help)?);
    assert!(rt; is_refused(rt.alloc(), &["nfsd", "--version"], 0, "nfsd 0.1.0\n")?);
    Ok(())
}

const NETWORK: [&str; 15] = [
    "nfsd",
    "--export",
    "/data,rw,*",
    "--tcp",
    "127.0.0.1:2049",
    "--udp",
    "[::1]:2049",
    "--workers",
    "64",
    "--connections",
    "1024",
    "--accept",
    "3",
    "--stats",
    "60",
];

/// Whether the network is as it is given.
fn is_network(network: &Network) -> bool {
    let (Some(tcp), Some(udp)) = (&network.tcp, &network.udp) else {
        return false;
    };
    let numbers = (
        network.workers,
        network.connections,
        network.accept,
        network.stats,
    );
    tcp.as_str() == "127.0.0.1:2049" && udp.as_str() == "[::1]:2049" && numbers == (64, 1024, 3, 60)
}

#[test]
fn the_network(rt: HostRuntime) -> Result<(), Fail> {
    let options = options(rt.alloc(), &NETWORK)?;
    assert!(rt; matches!(&options.transport, Transport::Network(network) if is_network(network)));
    Ok(())
}

/// Lines on standard input say which exports replace those before where that is asked for beside an address.
#[test]
fn lines_of_an_operator(rt: HostRuntime) -> Result<(), Fail> {
    let words = with(rt.alloc(), &NETWORK[..5], &["--control"])?;
    let options = options(rt.alloc(), &words)?;
    assert!(rt;
        matches!(
            &options.transport,
            Transport::Network(Network { control: true, .. })
        )
    );
    Ok(())
}

/// Four workers and 1,024 connections, for ever, and nobody says anything on standard input.
#[test]
fn the_defaults_of_the_network(rt: HostRuntime) -> Result<(), Fail> {
    let options = options(rt.alloc(), &NETWORK[..5])?;
    assert!(rt;
        matches!(
            &options.transport,
            Transport::Network(Network {
                udp: None,
                control: false,
                workers: 4,
                connections: 1024,
                accept: 0,
                stats: 0,
                ..
            })
        )
    );
    Ok(())
}

#[test]
fn the_first_fault_is_told(rt: HostRuntime) -> Result<(), Fail> {
    let alloc = rt.alloc();
    let refused = [
        (
            ["nfsd", "--export", "data,rw,*", "--start=x"].as_slice(),
            2,
            "error: invalid value 'x'",
        ),
        (
            ["nfsd", "--export", "data,rw,*", "--host="].as_slice(),
            2,
            "error: the value of '--host",
        ),
        (
            ["nfsd", "--export", "data,rw,*"].as_slice(),
            2,
            "nfsd: no transport",
        ),
        (
            ["nfsd", "--stdio", "--export", "data,rx"].as_slice(),
            1,
            "nfsd: export 1: bad path",
        ),
        (
            ["nfsd", "--stdio", "--export", ""].as_slice(),
            1,
            "nfsd: export 1: bad path",
        ),
        (
            ["nfsd", "--stdio", "--export", "/data"].as_slice(),
            1,
            "nfsd: export 1: bad mode",
        ),
        (
            ["nfsd", "--stdio", "--export", "/data,rx,*"].as_slice(),
            1,
            "nfsd: export 1: bad mode",
        ),
        (
            ["nfsd", "--stdio", "--export", "/data,rw"].as_slice(),
            1,
            "nfsd: export 1: no host",
        ),
        (
            ["nfsd", "--stdio", "--export", "/data,rw,"].as_slice(),
            1,
            "nfsd: export 1: no host",
        ),
    ];
    for (words, status, beginning) in refused {
        assert!(rt; is_refused(alloc, words, status, beginning)?, "{beginning}");
    }
    Ok(())
}

/// Of several exports: too many before all else, then the first that is at fault, and of its faults the first.
#[test]
fn the_first_export_at_fault_is_told(rt: HostRuntime) -> Result<(), Fail> {
    let alloc = rt.alloc();
    let refused = [
        ("/b,rw", "nfsd: export 2: no host"),
        ("/b,rx,*", "nfsd: export 2: bad mode"),
        ("b,rx", "nfsd: export 2: bad path"),
        ("/data,ro,10.0.0.1", "nfsd: export 2: double path"),
        ("/data,ro", "nfsd: export 2: no host"),
    ];
    for (export, line) in refused {
        let words = with(alloc, &SERVE, &["--export", export, "--export", "c"])?;
        assert!(rt; is_refused(alloc, &words, 1, line)?, "{line}");
    }
    Ok(())
}

/// A command line of `/data` and of so many exports more, all of them at fault.
fn with_more_exports(alloc: Global, count: usize) -> Result<Vec<&'static str>, Fail> {
    let mut words = SERVE.to_vec(alloc)?;
    for _ in 0..count {
        words.extend_from_slice(&["--export", "/data,rx"])?;
    }
    Ok(words)
}

#[test]
fn exports_that_are_64_are_not_too_many(rt: HostRuntime) -> Result<(), Fail> {
    let words = with_more_exports(rt.alloc(), 63)?;
    assert!(rt; is_refused(rt.alloc(), &words, 1, "nfsd: export 2: bad mode")?);
    Ok(())
}

#[test]
fn more_than_64_exports_are_too_many(rt: HostRuntime) -> Result<(), Fail> {
    let words = with_more_exports(rt.alloc(), 64)?;
    assert!(rt; is_refused(rt.alloc(), &words, 1, "nfsd: too many exports")?);
    Ok(())
}

/// With an allocation refused, only this is told; and else the options.
#[test]
fn want_of_memory_is_told(rt: HostRuntime) {
    let words = [
        "nfsd",
        "--stdio",
        "--export",
        "/data,rw,*,10.0.0.1",
        "--start",
        "7",
    ];
    assert!(rt; starts_or_is_refused(rt.alloc(), &words));
}

/// Whether the words ask for the start number 7, or there is no memory.
fn starts_or_is_refused(alloc: Global, words: &[&str]) -> bool {
    match configure(alloc, words) {
        Ok(options) => {
            let start = options.start;
            drop(options);
            start == Some(7)
        }
        Err(exit) => {
            let status = exit.status();
            matches!(exit, Exit::Memory) && status == 1
        }
    }
}

/// Arguments of one byte each.
#[derive(Drop)]
struct Letters {
    bytes: [u8; 3],
}

impl Env for Letters {
    fn arg(&self, i: usize, buf: &mut [u8]) -> Result<usize, FillError> {
        match (self.bytes.get(i), buf) {
            (None, _) => Err(FillError::NotPresent),
            (Some(byte), [first, ..]) => {
                *first = *byte;
                Ok(1)
            }
            (Some(_), []) => Err(FillError::TooLong),
        }
    }

    fn var(&self, _name: &str, _buf: &mut [u8]) -> Result<usize, FillError> {
        Err(FillError::NotPresent)
    }

    fn var_at(&self, _i: usize, _buf: &mut [u8]) -> Result<usize, FillError> {
        Err(FillError::NotPresent)
    }
}

/// Whether these letters are taken as three words, of which the last is this.
fn are_words(alloc: Global, bytes: [u8; 3], last: &str) -> bool {
    match arguments(&(Letters { bytes }, alloc)) {
        Ok(words) => words.len() == 3 && words[2].as_str() == last,
        Err(exit) => {
            drop(exit);
            false
        }
    }
}

/// Whether these letters are refused as no text.
fn are_refused(alloc: Global, bytes: [u8; 3]) -> Result<bool, Fail> {
    let told = "error: invalid UTF-8 was detected in one or more arguments\n\nUsage: nfsd ";
    match arguments(&(Letters { bytes }, alloc)) {
        Ok(words) => {
            drop(words);
            Ok(false)
        }
        Err(exit) => tells(alloc, &exit, 2, told),
    }
}

#[test]
fn arguments_are_text(rt: HostRuntime) -> Result<(), Fail> {
    assert!(rt; are_words(rt.alloc(), *b"abc", "c"));
    assert!(rt; are_refused(rt.alloc(), [b'a', 0xff, b'c'])?);
    Ok(())
}
