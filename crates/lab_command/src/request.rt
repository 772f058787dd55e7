//! What is asked of the lab.

/// What the words ask.
#[derive(Drop)]
pub enum LabRequest<'a> {
    /// About a node by itself, or a program.
    Node(NodeRequest<'a>),
    /// To compile the occam text in a file.
    Occam(OccamRequest<'a>),
    /// To show the plan on standard input.
    Plan,
    /// To replay standard input on farms, if that takes no more Steps than these.
    Replay(Option<u64>),
    /// To do something with the script in a file, or on standard input.
    Script(Option<&'a str>, ScriptUse),
    /// To run the script in a file, and to trace the nodes of a domain.
    TraceScript(TracedScript<'a>),
    /// To compare files of rows with what they expect.
    Rows(RowFiles<'a>),
    /// To say why the nodes of a record wait.
    Why(Explaining<'a>),
    /// To show a span of a record as a film.
    Film(Showing<'a>),
    /// To look through a record by commands.
    Debug(Debugging<'a>),
}

/// What is asked of a node by itself, or of a program.
#[derive(Drop)]
pub enum NodeRequest<'a> {
    /// To trace what standard input asks of a node, if that takes no more Steps than these.
    Trace(Option<u64>),
    /// To boot a node with code, and to trace it.
    Boot(BootOptions<'a>),
    /// To assemble standard input.
    Assemble(AssemblyOptions<'a>),
    /// To disassemble standard input.
    Disassemble,
}

/// How a node is traced that is booted with code.
#[derive(Drop)]
pub struct BootOptions<'a> {
    /// The code.
    pub code: BootedCode<'a>,
    /// How many Steps are traced at most.
    pub steps: u64,
    /// The address before whose instruction the trace stops, or a label of the program.
    pub until: Option<&'a str>,
    /// What is sent to the program: links and bytes, each `LINK:HEX`.
    pub inputs: Vec<&'a str>,
}

/// The code with which a node is booted.
#[derive(Clone, Copy)]
pub enum BootedCode<'a> {
    /// What these hexadecimal digits spell.
    Digits(&'a str),
    /// That of the program in a file.
    Program(&'a str),
}

/// How assembled code is printed.
#[derive(Clone, Copy)]
pub struct AssemblyOptions<'a> {
    /// Beside its text.
    pub listing: bool,
    /// As lines of a script, for this host and this user.
    pub pokes: Option<(&'a str, &'a str)>,
}

/// What is asked of an occam text.
#[derive(Clone, Copy)]
pub struct OccamRequest<'a> {
    /// The file that it is in.
    pub file: &'a str,
    pub form: OccamForm<'a>,
    /// How many bytes of memory the node has, or as many as the largest may have.
    pub memory: Option<u32>,
}

/// As what a compiled program is printed.
#[derive(Clone, Copy)]
pub enum OccamForm<'a> {
    /// As a text for the assembler.
    Text,
    /// The same beside addresses and bytes.
    Listing,
    /// As the digits that a boot takes.
    Code,
    /// As lines of a script.
    Pokes { host: &'a str, user: &'a str },
    /// As a text of occam without procedures, in which each name is declared once.
    Core,
    /// As a table of what it takes.
    Sizes,
}

/// What is done with the text of a script.
#[derive(Clone, Copy)]
pub enum ScriptUse {
    /// Its shorthand lines are spelled out.
    Expand,
    /// It is run on one thread, if that takes no more Steps than these.
    Run(Option<u64>),
    /// The same, and the record of the domain of this number is printed.
    Record { domain: u8, most: Option<u64> },
}

/// What is traced of a script.
#[derive(Clone, Copy)]
pub struct TracedScript<'a> {
    /// The file of the script.
    pub script: &'a str,
    /// The number of the domain whose nodes are traced, with the packets between them.
    pub domain: u8,
    /// How many Steps the script may do, and how many are traced at most.
    pub most: Option<u64>,
}

/// Which rows are compared.
#[derive(Drop)]
pub struct RowFiles<'a> {
    /// The files that they are in.
    pub files: Vec<&'a str>,
    /// How many Steps may be done for all of them, or any number.
    pub most: Option<u64>,
}

/// What is explained of a record.
#[derive(Drop)]
pub struct Explaining<'a> {
    /// The file of the record.
    pub record: &'a str,
    /// The programs of nodes: the number of a node, the file of its program, and so on.
    pub programs: Vec<&'a str>,
    /// After how many of its events, or at its end if it has fewer.
    pub events: u64,
    /// How many Steps may be done to get there, or any number.
    pub most: Option<u64>,
}

/// What is shown of a record.
#[derive(Drop)]
pub struct Showing<'a> {
    /// The file of the record.
    pub record: &'a str,
    /// The programs of nodes: the number of a node, the file of its program, and so on.
    pub programs: Vec<&'a str>,
    /// After how many of its events the first frame is.
    pub from: u64,
    /// How many frames there are at most.
    pub count: u64,
    /// How many Steps may be done to the end of that part, or any number.
    pub most: Option<u64>,
}

/// What is asked of the debugger.
#[derive(Drop)]
pub struct Debugging<'a> {
    /// The file of the record.
    pub record: &'a str,
    /// The programs of nodes: the number of a node, the file of its program, and so on.
    pub programs: Vec<&'a str>,
    /// How many Steps the record may have, or any number.
    pub most: Option<u64>,
}
