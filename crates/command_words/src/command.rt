// The program's commands.
ghost use Rattle.std.specs.Prelude.{◌≡◌, map, option_map};
ghost use Rattle.command_words.specs.Commands.{commands, row_named};
ghost use Rattle.command_words.specs.Rows.{row_of};

/// A command.
#[derive(Clone, Copy)]
pub enum Command {
    Check,
    Init,
    Ideal,
    Step,
    Shallow,
    Migrate,
    Prove,
    Verify,
    Audit,
    Library,
    Gen,
    Serve,
    Ask,
    Pieces,
    Fetch,
    Mirror,
    Draw,
    Found,
    Host,
    Replay,
    Emit,
}

/// A command that words call, with the texts of its arguments.
#[derive(Clone, Copy)]
pub struct Invocation<'a> {
    pub command: Command,
    /// As many as the command takes, and in the order of its arguments.
    pub texts: &'a [&'a str],
}

/// A command in the table: its name, and the names of its arguments.
#[derive(Clone, Copy)]
pub struct Row {
    pub command: Command,
    pub name: &'static str,
    pub arguments: &'static [&'static str],
    /// How many of them have to be there, at least one: those behind may be left out.
    pub least: usize,
}

/// The commands.
#[rattlefmt::skip]
static COMMANDS: [Row; 21] = [
    Row { command: Command::Check, name: "check", arguments: &["P"], least: 1 },
    Row { command: Command::Init, name: "init", arguments: &["P", "ROLE", "ARG", "FUEL", "OUT"], least: 5 },
    Row { command: Command::Ideal, name: "ideal", arguments: &["P", "ROLE", "IMG", "ARG", "FUEL"], least: 5 },
    Row { command: Command::Step, name: "step", arguments: &["P", "ROLE", "IMG", "ARG", "FUEL", "OUT"], least: 6 },
    Row { command: Command::Shallow, name: "shallow", arguments: &["P", "IMG", "OUT"], least: 3 },
    Row { command: Command::Migrate, name: "migrate", arguments: &["P", "IMG", "Q", "OUT"], least: 4 },
    Row { command: Command::Prove, name: "prove", arguments: &["P", "ROLE", "IMG", "ARG", "FUEL", "N", "OUT"], least: 7 },
    Row { command: Command::Verify, name: "verify", arguments: &["P", "ROLE", "STATE", "ARG", "FUEL", "PROOF", "OUT"], least: 6 },
    Row { command: Command::Audit, name: "audit", arguments: &["P", "ROLE", "IMG", "ARG", "FUEL", "PROOF"], least: 6 },
    Row { command: Command::Library, name: "library", arguments: &["NAME"], least: 1 },
    Row { command: Command::Gen, name: "gen", arguments: &["NAME", "SEED", "COUNT", "N"], least: 4 },
    Row { command: Command::Serve, name: "serve", arguments: &["P", "IMG", "PORT", "CONNS", "SLICE", "OUT"], least: 6 },
    Row { command: Command::Ask, name: "ask", arguments: &["P", "STATE", "PORT", "SCRIPT", "OUT"], least: 5 },
    Row { command: Command::Pieces, name: "pieces", arguments: &["P", "IMG", "OUT"], least: 3 },
    Row { command: Command::Fetch, name: "fetch", arguments: &["P", "ROLE", "STATE", "ARG", "FUEL", "MIRROR"], least: 6 },
    Row { command: Command::Mirror, name: "mirror", arguments: &["MIRROR", "PORT", "CONNS"], least: 3 },
    Row { command: Command::Draw, name: "draw", arguments: &["P", "ROLE", "STATE", "ARG", "FUEL", "PORT"], least: 6 },
    Row { command: Command::Found, name: "found", arguments: &["P", "IMG", "JOURNAL"], least: 3 },
    Row { command: Command::Host, name: "host", arguments: &["P", "JOURNAL", "PORT", "CONNS", "SLICE"], least: 5 },
    Row { command: Command::Replay, name: "replay", arguments: &["P", "JOURNAL", "OUT"], least: 3 },
    Row { command: Command::Emit, name: "emit", arguments: &["P", "OUT"], least: 2 },
];

/// The table of the commands.
pub fn commands() -> &'static [Row]
    ensures { map row_of result.now ≡ commands }
{
    &COMMANDS
}

/// The row of this name.
pub fn row_named(name: &str) -> Option<&'static Row>
    ensures { option_map (λ row. row_of row.now) result ≡ row_named name.now }
{
    commands().iter().find(|row| row.name == name)
}
