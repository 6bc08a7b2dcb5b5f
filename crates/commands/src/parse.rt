// A line to a command.
ghost use Rattle.std.specs.Prelude.{◌≡◌, ◌≤◌, length};
ghost use Rattle.commands.specs.Commands.{line_limit, through, text_after, numbers_after, as_constant, as_variable, as_concatenation, as_equation, as_merge, as_known, by_letter, command, parsed_is};
ghost use Rattle.commands.specs.Working.Readings.{Listed};

use crate::numbers::{read_numbers, read_resolve};
use crate::utf8::read_chars;
use crate::{Command, LINE_LIMIT};

// A text or a name: what follows a command's letter and one space.
fn read_text(rest: &[u8], list: &mut [u32]) -> Option<usize>
    requires in_line { length rest.now ≤ line_limit }
    requires room { length rest.now ≤ length list.old }
    ensures { Listed (text_after rest.now) result list.new }
{
    let [b' ', text @ ..] = rest else {
        return None;
    };
    read_chars(text, list)
}

fn read_equation(rest: &[u8], list: &mut [u32]) -> Option<Command>
    requires { length rest.now ≤ length list.old }
    ensures { parsed_is result list.new ≡ through as_equation (numbers_after rest.now) }
{
    match read_numbers(rest, list)? {
        2 => Some(Command::Equation(list[0], list[1])),
        _ => None,
    }
}

fn read_merge(rest: &[u8], list: &mut [u32]) -> Option<Command>
    requires { length rest.now ≤ length list.old }
    ensures { parsed_is result list.new ≡ through as_merge (numbers_after rest.now) }
{
    match read_numbers(rest, list)? {
        3 => Some(Command::Merge(list[0], list[1], list[2])),
        _ => None,
    }
}

// By the line's letter.
fn by_letter(letter: u8, rest: &[u8], list: &mut [u32]) -> Option<Command>
    requires in_line { length rest.now ≤ line_limit }
    requires room { length rest.now ≤ length list.old }
    ensures { parsed_is result list.new ≡ by_letter letter rest.now }
{
    match letter {
        b'C' => read_text(rest, list).map(Command::Constant),
        b'V' => read_text(rest, list).map(Command::Variable),
        b'P' => read_numbers(rest, list).map(Command::Concatenation),
        b'E' => read_equation(rest, list),
        b'M' => read_merge(rest, list),
        b'K' => read_numbers(rest, list).map(Command::Known),
        b'R' => read_resolve(rest),
        _ => None,
    }
}

// What a line, without its end, asks for. A text, parts and a known list stand at the start of the list.
pub fn parse(line: &[u8], list: &mut [u32; 1024]) -> Option<Command>
    ensures { parsed_is result list.new ≡ command line.now }
{
    let [letter, rest @ ..] = line else {
        return None;
    };
    if LINE_LIMIT < line.len() {
        return None;
    }
    by_letter(*letter, rest, list)
}
