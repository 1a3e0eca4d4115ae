// What the program tells of itself.

/// The version of the repository, and of the toolchain by which it is proved.
const VERSION: &str = "nxt 1.0, proved with rattle-kit-13f logic dac8208d650f15bf\n";

const HELP: &str = "\
nxt: the standard virtual machine of the LEGO Mindstorms NXT brick, without a brick

nxt run nbc FILE SCRIPT     the NBC text FILE runs the rows of SCRIPT; prints a report
nxt run rxe FILE SCRIPT     the same of the image FILE
nxt run --effort K ..       the same; up to K blocks of the pool settle at each turn's end
nxt check FILE              is the image FILE accepted?
nxt list FILE               the image FILE as text
nxt asm FILE IMAGE          writes the image of the NBC text FILE to IMAGE
nxt gen NUMBER              runs a program that is made from a number
nxt --help, nxt --version   this text, and the version

A refused program prints one line, refused,RULE,PLACE. Exit statuses: 0 done, 1 refused,
2 no such words, 3 a file can't be read, 4 one can't be written, 5 no memory, 6 a bad row
of the script, 7 too large.
";

/// What the program tells of itself, where its one word asks for that: `--help` or `--version`.
pub fn help_of(words: &[Vec<u8>]) -> Option<&'static str> {
    match words {
        [word] => match word.as_slice() {
            b"--help" => Some(HELP),
            b"--version" => Some(VERSION),
            _ => None,
        },
        _ => None,
    }
}
