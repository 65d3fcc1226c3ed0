// A line as a call: two digits of the function's number, then a space and 16 digits for each argument.
use probe_fields::args::{ARGUMENTS, Args, DIGITS, FIELD};
use probe_fields::page::Page;

// The digits of a function's number.
const NUMBER: usize = 2;

// The bytes of a call with as many arguments as there is room for.
pub const MOST_LINE_BYTES: usize = NUMBER + FIELD * ARGUMENTS;

// The answer to a line with its newline.
pub(crate) fn answer(line: &[u8], page: &mut Page) {
    let start = page.len();
    if !is_answered(line, page) {
        page.truncate(start);
        page.put_byte(b'?');
    }
    page.put_byte(b'\n');
}

// Does the line call a function that there is, with as many arguments as that takes? Then its result is put on the page.
fn is_answered(line: &[u8], page: &mut Page) -> bool {
    let Some((number, fields)) = line.split_at_checked(NUMBER) else {
        return false;
    };
    let mut args = Args::new(fields);
    hex_digits::all_digits(number)
        && fields.chunks(FIELD).all(|field| is_argument(field))
        && dispatch(hex_digits::two_at(number, 0), &mut args, page)
        && args.is_spent()
}

// Is the field a space and the digits of an argument?
fn is_argument(field: &[u8]) -> bool {
    match field {
        [b' ', digits @ ..] => (digits.len() == DIGITS) && hex_digits::all_digits(digits),
        _ => false,
    }
}

// Is f a function's number? Then its result is put on the page.
// Each number stands once, in the arm that calls its function: a hundred variants of an enum would each want a number and an arm.
fn dispatch(f: u64, args: &mut Args, page: &mut Page) -> bool {
    probe_fields::answer(f, args, page)
        || probe_jord::answer(f, args, page)
        || probe_sphere::answer(f, args, page)
        || probe_ways::answer(f, args, page)
}
