ghost use Rattle.std.specs.Prelude.{◌≡◌, ◌≢◌, ◌≤◌, ◌⊎◌, length, IfOk, IfSome, Some};
ghost use Rattle.dt_outside.specs.Faults.{Rose};
ghost use Rattle.dt_outside.specs.Folder.{FolderView, IsAboveLimit, MissedLast};

use crate::failures::LoadError;
use std::alloc::Global;

/// A place that has files by name.
///
/// A folder may show what its files hold; then a load that isn't a fault gives exactly that. Whether
/// it shows or not, it counts its faults. The count never falls, and ends at `u64::MAX`. It may show
/// the name of the most recent load that was a fault.
pub trait Folder {
    // What is seen of it.
    ghost seen: { Self → FolderView };

    /// Gives the bytes of the file of this name, at most `limit` of them.
    ///
    /// `Failed` where the device failed or no file has the name: a fault, and it was counted.
    /// `TooLong` where the file has more than `limit` bytes. No load changes a file, and after
    /// `NoMemory` the folder is as before.
    fn load(&mut self, alloc: Global, name: &str, limit: u64) -> Result<Vec<u8>, LoadError>
        ensures capped { IfOk result (λ bytes. length bytes.items ≤ limit) }
        ensures failed { result ≡ Err LoadError.Failed → Rose (seen self.old).faults (seen self.new).faults }

        // A load that fails is the most recent one that did, by its name; no other load changes which one that is.
        ensures missed { result ≡ Err LoadError.Failed → MissedLast (seen self.new) name.now }
        ensures same_missed { result ≢ Err LoadError.Failed → (seen self.new).missed ≡ (seen self.old).missed }

        // Where the files are known, an answer is that of the file of this name.
        ensures whole { IfSome (seen self.old).told (λ files.
            IfOk result (λ bytes. files name.now ≡ Some bytes.items)) }
        ensures long_only { IfSome (seen self.old).told (λ files.
            result ≡ Err LoadError.TooLong → IsAboveLimit files name.now limit) }

        // Without a fault a file that is too long is refused as such; only running out of memory may come first.
        ensures long_always { IfSome (seen self.old).told (λ files.
            IsAboveLimit files name.now limit → ¬ Rose (seen self.old).faults (seen self.new).faults →
            (result ≡ Err LoadError.TooLong) ⊎ (result ≡ Err LoadError.NoMemory)) }

        // What stays, and what never falls.
        ensures same_told { (seen self.new).told ≡ (seen self.old).told }
        ensures same_count { result ≡ Err LoadError.NoMemory → (seen self.new).faults ≡ (seen self.old).faults }
        ensures later { (seen self.old).faults ≤ (seen self.new).faults };
}
