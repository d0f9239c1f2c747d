//! The words of the command line.

/// What is to be printed. A question stands in a file.
#[derive(Clone, Copy, Debug)]
pub enum Job<'a> {
    /// How many variables and clauses formulas have.
    Clauses(&'a [String]),
    /// A formula in the DIMACS format.
    Formula(&'a str),
    /// How searches with this budget end.
    Search(u32, &'a [String]),
    /// The log of a search with this budget.
    Log(u32, &'a str),
    /// What decides questions that are asked term by term with this budget, so many times.
    Ask(u32, u32, &'a [String]),
    /// What the exploration of these words comes to.
    Explore(&'a [String]),
    /// What is said of a certificate of a program.
    Audit(&'a str, &'a str),
    /// A certificate of a program with the lines that it lacks, by searches with this budget.
    Complete(u32, &'a str, &'a str),
}

fn number(word: &str) -> Option<u32> {
    word.parse::<u32>().ok()
}

/// The job of the words, or none.
pub fn read_job(words: &[String]) -> Option<Job<'_>> {
    let command = words.first()?;
    match (command.as_str(), &words[1..]) {
        ("clauses", files) => Some(Job::Clauses(files)),
        ("formula", [file]) => Some(Job::Formula(file)),
        ("search", [budget, files @ ..]) => Some(Job::Search(number(budget)?, files)),
        ("log", [budget, file]) => Some(Job::Log(number(budget)?, file)),
        ("ask", [budget, rounds, files @ ..]) => {
            Some(Job::Ask(number(budget)?, number(rounds)?, files))
        }
        ("explore", words) => Some(Job::Explore(words)),
        ("audit", [program, certificate]) => Some(Job::Audit(program, certificate)),
        ("complete", [budget, program, certificate]) => {
            Some(Job::Complete(number(budget)?, program, certificate))
        }
        _ => None,
    }
}
