//! Which package the symbols of a file belong to.

ghost use Rattle.std.specs.Prelude.{◌≡◌, ◌++◌, ◌∷◌, [], OnOk, OnErr, IfErr};
ghost use Rattle.std.specs.Str.{bytes_eq};
ghost use Rattle.std.specs.String.{string_bytes};
ghost use Rattle.std.specs.List.{list_any};
ghost use Rattle.scip_symbol.specs.Package.{IsPackage};
ghost use Rattle.scip_model.specs.Packages.{ArePackages, all_in, with_path, package_among, package_of_path};

use indexmap::IndexSet;
use scip_symbol::PackageId;
use std::alloc::{AllocFailed, Global};
use std::marker::Model;

/// An included root with a package of its own, and the paths of its files.
///
/// Contracts see the package and the paths.
#[derive(Debug, Drop)]
pub struct RootPackage {
    id: PackageId,
    paths: IndexSet<String>,
}

impl Model for RootPackage {
    ghost use Rattle.std.specs.Prelude.{map};
    ghost use Rattle.std.specs.String.{string_bytes};
    ghost use Rattle.scip_symbol.specs.Package.{IsPackage};
    ghost use Rattle.scip_model.specs.Packages.{Root};

    ghost Value = { Root };

    ghost view = { λ root. record { id = root.id; paths = map string_bytes root.paths.keys } };

    ghost invariant = { λ root. IsPackage root.id };
}

impl RootPackage {
    /// A root of which no file is known yet. Takes no memory.
    pub fn new(alloc: Global, id: PackageId) -> RootPackage
        ensures { result ≡ record { id = id; paths = [] } }
    {
        // From here on it is known that this names a package.
        id.manager();
        RootPackage {
            id,
            paths: IndexSet::new(alloc),
        }
    }

    /// Adds the path of a file, unless it is there. If memory runs out, nothing changes, and the path is handed back.
    pub fn add(&mut self, path: String) -> Result<(), AllocFailed<String>>
        ensures id { self.new.id ≡ self.old.id }
        ensures paths { OnOk result (self.new.paths ≡ with_path self.old.paths (string_bytes path)) }
        ensures err { OnErr result (self.new ≡ self.old) }
        ensures handed_back { IfErr result (λ e. e.value ≡ path) }
    {
        self.paths.insert(path)?;
        Ok(())
    }

    /// Whether a file of the root has this path.
    fn has(&self, path: &str) -> bool
        ensures { result ≡ list_any (bytes_eq path.now) self.now.paths }
    {
        self.paths.contains(path)
    }

    /// Its package.
    fn id(&self) -> &PackageId
        ensures value { result.now ≡ self.now.id }
        ensures known { IsPackage self.now.id }
    {
        &self.id
    }
}

/// The package of a run, and the included roots that have one of their own.
///
/// Contracts see that package, and the list of the roots.
#[derive(Debug, Drop)]
pub struct FilePackages {
    run: PackageId,
    roots: Vec<RootPackage>,
}

impl Model for FilePackages {
    ghost use Rattle.std.specs.Prelude.{[]};
    ghost use Rattle.scip_model.specs.Packages.{Packages, ArePackages};

    ghost Value = { Packages };

    ghost view = { λ packages. record { run = packages.run; roots = packages.roots.items; repeated = [] } };

    ghost invariant = { λ packages. ArePackages (record {
      run = packages.run;
      roots = packages.roots.items;
      repeated = [];
    }) };
}

impl FilePackages {
    /// Each file has the package of the run. Takes no memory.
    pub fn of_run(alloc: Global, run: PackageId) -> FilePackages
        ensures { result ≡ all_in run }
    {
        // From here on it is known that this names a package.
        run.manager();
        FilePackages {
            run,
            roots: Vec::new(alloc),
        }
    }

    /// Adds a root after those that are there: of the roots that have a file with one path the first counts. If
    /// memory runs out, nothing changes, and the root is handed back.
    pub fn add(&mut self, root: RootPackage) -> Result<(), AllocFailed<RootPackage>>
        ensures run { self.new.run ≡ self.old.run }
        ensures repeated { self.new.repeated ≡ [] }
        ensures roots { OnOk result (self.new.roots ≡ self.old.roots ++ root ∷ []) }
        ensures err { OnErr result (self.new ≡ self.old) }
        ensures handed_back { IfErr result (λ e. e.value ≡ root) }
    {
        // From here on it is known that this names a package.
        root.id();
        self.roots.push(root)?;
        Ok(())
    }

    /// The package of the run, which packages of the proto3 language belong to.
    pub fn run(&self) -> &PackageId
        ensures value { result.now ≡ self.now.run }
        ensures known { ArePackages self.now }
    {
        &self.run
    }

    /// The package of the file with this path.
    #[tactic(auto, unfolding(crate::specs::Packages::package_of_path))]
    pub fn of_path(&self, path: &str) -> &PackageId
        ensures { result.now ≡ package_of_path self.now path.now }
    {
        package_among(&self.run, &self.roots, path)
    }
}

/// The package of the first root that has a file with this path; if none has, the run's.
fn package_among<'a>(run: &'a PackageId, roots: &'a [RootPackage], path: &str) -> &'a PackageId
    ensures { result.now ≡ package_among run.now path.now roots.now }
{
    let mut rest = roots;
    while let [root, others @ ..] = rest {
        if root.has(path) {
            return root.id();
        }
        rest = others;
    }
    run
}
