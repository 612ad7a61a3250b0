ghost use Rattle.std.specs.Prelude.{◌≡◌, ◌≢◌, ◌≤◌, ℕ, MatchOption};
ghost use Rattle.std.specs.Fmt.{decimal};
ghost use Rattle.dt_access.specs.Clash.{Bytes};
ghost use Rattle.dt_command.specs.Tasks.{Asks, Big, IsBuiltin, IsSize, NamesCluster, NeedsThreads, Replay, Run, builtin_word, word_bytes};
ghost use Rattle.dt_command.specs.TaskCode.{IsRight, IsRightThreaded, asked_for, run_asked_for, threaded_asked_for, word_of};

use dt_text::read_u32;

/// Which cluster a word names.
#[derive(Clone, Copy, Debug)]
pub enum ClusterWord<'a> {
    /// The built-in one of n regions.
    Builtin(u8),
    /// The one in the file of this name.
    File(&'a str),
}

/// What `replay` is asked to do.
#[derive(Clone, Copy, Debug)]
pub struct ReplayWords<'a> {
    /// The cluster.
    pub cluster: ClusterWord<'a>,
    /// The name of the workload's file.
    pub workload: &'a str,
    /// The name of the events' file.
    pub events: &'a str,
}

/// What `run` is asked to do.
#[derive(Clone, Copy, Debug)]
pub struct RunWords<'a> {
    /// The cluster.
    pub cluster: ClusterWord<'a>,
    /// The name of the workload's file.
    pub workload: &'a str,
}

/// What threads are asked to do.
#[derive(Clone, Copy, Debug)]
pub enum ThreadedWords<'a> {
    /// To run a workload.
    Run(RunWords<'a>),
    /// To run the generated load of n calls.
    Big(u32),
}

/// Reads the words of a replay. `None` exactly where the words are not those of one. Takes no memory.
pub fn replay_words(words: &[String]) -> Option<ReplayWords<'_>>
    ensures { MatchOption result ((cluster workload events : Bytes) → ¬ Asks (word_bytes words.now) (Replay cluster workload events))
        (λ replay. Asks (word_bytes words.now) (asked_for replay) × IsRight replay.cluster) }
{
    let [verb, cluster, workload, events] = words else {
        return None;
    };
    if verb.as_str() != "replay" || workload.is_empty() || events.is_empty() {
        return None;
    }
    let cluster = cluster_word(cluster)?;
    Some(ReplayWords {
        cluster,
        workload,
        events,
    })
}

/// Reads the words of what threads do: of a run, or of a big one. `None` exactly where the words are those of neither. Takes no
/// memory.
pub fn threaded_words(words: &[String]) -> Option<ThreadedWords<'_>>
    ensures { MatchOption result (¬ NeedsThreads (word_bytes words.now))
        (λ threaded. Asks (word_bytes words.now) (threaded_asked_for threaded) × IsRightThreaded threaded) }
{
    if let Some(run) = run_words(words) {
        return Some(ThreadedWords::Run(run));
    }
    Some(ThreadedWords::Big(big_words(words)?))
}

/// Reads the words of a run. `None` exactly where the words are not those of one.
fn run_words(words: &[String]) -> Option<RunWords<'_>>
    ensures { MatchOption result ((cluster workload : Bytes) → ¬ Asks (word_bytes words.now) (Run cluster workload))
        (λ run. Asks (word_bytes words.now) (run_asked_for run) × IsRight run.cluster) }
{
    let [verb, cluster, workload] = words else {
        return None;
    };
    if verb.as_str() != "run" || workload.is_empty() {
        return None;
    }
    let cluster = cluster_word(cluster)?;
    Some(RunWords { cluster, workload })
}

/// Reads the words of a big run: how many calls are asked for. `None` exactly where the words are not those of one.
fn big_words(words: &[String]) -> Option<u32>
    ensures { MatchOption result ((size : Bytes) → ¬ Asks (word_bytes words.now) (Big size))
        (λ calls. Asks (word_bytes words.now) (Big (decimal calls)) × (1 ≤ calls) × (calls ≤ 20000)) }
{
    let [verb, size] = words else {
        return None;
    };
    if verb.as_str() != "big" {
        return None;
    }
    size_of(size.as_bytes())
}

/// The number from 1 to 20000 that the word spells; `None` exactly if it spells none.
fn size_of(word: &[u8]) -> Option<u32>
    ensures { MatchOption result (¬ IsSize word.now)
        (λ calls. (1 ≤ calls) × (calls ≤ 20000) × (word.now ≡ decimal calls)) }
{
    if word.len() > 5 {
        return None;
    }
    let number = read_u32(word)?;
    if number < 1 || number > 20_000 {
        return None;
    }
    Some(number)
}

/// Which cluster the word names. `None` exactly where it names none.
fn cluster_word(word: &str) -> Option<ClusterWord<'_>>
    ensures { MatchOption result (¬ NamesCluster word.now)
        (λ cluster. IsRight cluster × (word_of cluster ≡ word.now) × NamesCluster word.now) }
{
    match word.as_bytes() {
        [] => None,
        [b':', ..] => Some(ClusterWord::Builtin(builtin_regions(word.as_bytes())?)),
        [..] => Some(ClusterWord::File(word)),
    }
}

/// How many regions the built-in cluster of this word has. `None` exactly where the word names none.
fn builtin_regions(word: &[u8]) -> Option<u8>
    ensures { MatchOption result ((n : ℕ) → IsBuiltin n → word.now ≢ builtin_word n)
        (λ n. IsBuiltin n × (word.now ≡ builtin_word n)) }
{
    match word {
        [b':', digit @ b'1'..=b'8'] => Some(*digit - b'0'),
        _ => None,
    }
}
