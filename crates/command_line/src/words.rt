ghost use Rattle.std.specs.Prelude.{◌≡◌, map, string_bytes};
ghost use Rattle.std.specs.Option.{option_map};
ghost use Rattle.command_line.specs.Words.{allowance_of, request_by, request_of, config_of, file_name, protocol_of_word};
ghost use Rattle.command_line.specs.Words.{check_of, compare_of, keys_of, retire_of};
ghost use Rattle.command_line.specs.Words.{drive_of, explain_of, format_of, run_of, try_of};

use desk_tasks::{transaction_count, wide_number};
use host_protocol::number;
use tx_types::{Block, Config, Protocol};

/// What the program is asked for.
#[derive(Clone, Copy)]
pub enum Task<'a> {
    /// To try the commands of the file of this name on a fresh device.
    Try {
        commands: &'a str,
    },
    /// To save the image of a blank device of this configuration, so many blocks of which may be retired.
    Format {
        image: &'a str,
        config: Config,
        allowance: u32,
    },
    /// To serve the commands of a file on the device of an image file, and to save that.
    Run {
        image: &'a str,
        commands: &'a str,
    },
    /// To report on the records of an image file.
    Explain {
        image: &'a str,
    },
    /// To serve commands that are drawn on a fresh device of this protocol.
    Drive {
        start: u64,
        count: u32,
        protocol: Protocol,
    },
    /// To check whether the file of this name is the report on an image file.
    Check {
        image: &'a str,
        report: &'a str,
    },
    /// To compare the arrays of two image files.
    Compare {
        first: &'a str,
        second: &'a str,
    },
    /// To serve a key script on the store of an image file, and to save that.
    Keys {
        image: &'a str,
        script: &'a str,
    },
    /// To retire a block of the device of an image file, and to save that.
    Retire {
        image: &'a str,
        block: Block,
    },
}

/// The task that the words ask for, if they are in the table.
pub fn parse_words(words: &[String]) -> Option<Task<'_>>
    ensures { option_map request_of result ≡ request_by words.now }
{
    let (verb, rest) = words.split_first()?;
    match verb.as_str() {
        "try" => parse_try(rest),
        "format" => parse_format(rest),
        "run" => parse_run(rest),
        "explain" => parse_explain(rest),
        "drive" => parse_drive(rest),
        "check" => parse_check(rest),
        "compare" => parse_compare(rest),
        "keys" => parse_key_words(rest),
        "retire" => parse_retire(rest),
        _ => None,
    }
}

fn parse_try(words: &[String]) -> Option<Task<'_>>
    ensures { option_map request_of result ≡ try_of (map string_bytes words.now) }
{
    let [commands] = words else {
        return None;
    };
    Some(Task::Try {
        commands: name(commands)?,
    })
}

fn parse_format(words: &[String]) -> Option<Task<'_>>
    ensures { option_map request_of result ≡ format_of (map string_bytes words.now) }
{
    let [image, protocol, numbers @ ..] = words else {
        return None;
    };
    let image = name(image)?;
    let (config, more) = config(protocol_of_word(protocol)?, numbers)?;
    Some(Task::Format {
        image,
        config,
        allowance: allowance(more)?,
    })
}

fn parse_run(words: &[String]) -> Option<Task<'_>>
    ensures { option_map request_of result ≡ run_of (map string_bytes words.now) }
{
    let [image, commands] = words else {
        return None;
    };
    Some(Task::Run {
        image: name(image)?,
        commands: name(commands)?,
    })
}

fn parse_explain(words: &[String]) -> Option<Task<'_>>
    ensures { option_map request_of result ≡ explain_of (map string_bytes words.now) }
{
    let [image] = words else {
        return None;
    };
    Some(Task::Explain {
        image: name(image)?,
    })
}

fn parse_drive(words: &[String]) -> Option<Task<'_>>
    ensures { option_map request_of result ≡ drive_of (map string_bytes words.now) }
{
    let [start, count, protocol] = words else {
        return None;
    };
    Some(Task::Drive {
        start: wide_number(start.as_bytes())?,
        count: transaction_count(count.as_bytes())?,
        protocol: protocol_of_word(protocol)?,
    })
}

fn parse_check(words: &[String]) -> Option<Task<'_>>
    ensures { option_map request_of result ≡ check_of (map string_bytes words.now) }
{
    let [image, report] = words else {
        return None;
    };
    Some(Task::Check {
        image: name(image)?,
        report: name(report)?,
    })
}

fn parse_compare(words: &[String]) -> Option<Task<'_>>
    ensures { option_map request_of result ≡ compare_of (map string_bytes words.now) }
{
    let [first, second] = words else {
        return None;
    };
    Some(Task::Compare {
        first: name(first)?,
        second: name(second)?,
    })
}

fn parse_key_words(words: &[String]) -> Option<Task<'_>>
    ensures { option_map request_of result ≡ keys_of (map string_bytes words.now) }
{
    let [image, script] = words else {
        return None;
    };
    Some(Task::Keys {
        image: name(image)?,
        script: name(script)?,
    })
}

fn parse_retire(words: &[String]) -> Option<Task<'_>>
    ensures { option_map request_of result ≡ retire_of (map string_bytes words.now) }
{
    let [image, block] = words else {
        return None;
    };
    Some(Task::Retire {
        image: name(image)?,
        block: Block(number(block.as_bytes())?),
    })
}

/// The name of a file, which has at least one byte.
fn name(word: &str) -> Option<&str>
    ensures { option_map (λ n. n.now) result ≡ file_name word.now }
{
    if word.is_empty() { None } else { Some(word) }
}

/// The protocol of this name.
fn protocol_of_word(word: &str) -> Option<Protocol>
    ensures { result ≡ protocol_of_word word.now }
{
    match word {
        "scc" => Some(Protocol::Scc),
        "bpcc" => Some(Protocol::Bpcc),
        _ => None,
    }
}

/// The configuration of this protocol with the six numbers that stand first, and the words behind them.
fn config(protocol: Protocol, numbers: &[String]) -> Option<(Config, &[String])>
    ensures { option_map (λ read. (read.0, map string_bytes read.1.now)) result
        ≡ config_of protocol (map string_bytes numbers.now) }
{
    let [page, pages, blocks, dies, logical, pending, more @ ..] = numbers else {
        return None;
    };
    let config = Config {
        protocol,
        page_bytes: number(page.as_bytes())?,
        pages_per_block: number(pages.as_bytes())?,
        blocks_per_die: number(blocks.as_bytes())?,
        dies: number(dies.as_bytes())?,
        logical: number(logical.as_bytes())?,
        pending: number(pending.as_bytes())?,
    };
    Some((config, more))
}

/// How many blocks may be retired: a number, or none where there is no word.
fn allowance(words: &[String]) -> Option<u32>
    ensures { result ≡ allowance_of (map string_bytes words.now) }
{
    match words {
        [] => Some(0),
        [allowance] => number(allowance.as_bytes()),
        _ => None,
    }
}
