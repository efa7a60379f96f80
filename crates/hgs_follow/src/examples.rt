//! The definitions tried on texts of files. Each function is one example; none does anything.
ghost use Rattle.std.specs.Prelude.{◌≡◌, ◌++◌, [], codes, false, true, None, Some};
ghost use Rattle.hgs_index.specs.FileText.{marker};
ghost use Rattle.hgs_follow.specs.Lines.{comes_before, lines_text};
ghost use Rattle.hgs_follow.specs.Samples.{copy_of_a, copy_of_b, line_of, merged_b, told_by};

/// What Mercurial's `debugrename` says of two files that it copied, of which the second begins with a marker.
pub fn copies_by_mercurial()
    ensures first { told_by copy_of_a (codes "a\n") ≡ Some (codes "a", codes "b789fdd96dc2f3bd229c1dd8eedf0fc60e2b68e3") }
    ensures second { told_by copy_of_b (marker ++ codes "z\n") ≡ Some (codes "b", codes "37d9b5d994eab34eda9c16b195ace52c7b129980") }
{}

/// The first line of a key counts, and other lines are passed over.
pub fn first_lines_count()
    ensures twice { told_by (copy_of_a ++ copy_of_b) [] ≡ Some (codes "a", codes "b789fdd96dc2f3bd229c1dd8eedf0fc60e2b68e3") }
    ensures others { told_by (codes "author: copy: c\n" ++ copy_of_a) [] ≡ Some (codes "a", codes "b789fdd96dc2f3bd229c1dd8eedf0fc60e2b68e3") }
{}

/// A path without a node, a node without a path and a node in capitals say nothing.
pub fn halves_say_nothing()
    ensures path { told_by (codes "copy: a\n") [] ≡ None }
    ensures node { told_by (codes "copyrev: b789fdd96dc2f3bd229c1dd8eedf0fc60e2b68e3\n") [] ≡ None }
    ensures capitals { told_by (codes "copy: a\ncopyrev: B789FDD96DC2F3BD229C1DD8EEDF0FC60E2B68E3\n") [] ≡ None }
    ensures short { told_by (codes "copy: a\ncopyrev: b789fdd9\n") [] ≡ None }
{}

/// The text of a file's history through a merge and a copy, whose nodes are those of Mercurial's rule.
pub fn lines_by_mercurial()
    ensures { lines_text merged_b ≡ codes "4 c52322f7d12539b507c607e28e8091a2805a8388 b\n3 c1983bc20aefab86b7b2973fa1208fcd36e829bf b\n2 8813777d13c1fe24066ed28099aec948fb05f350 b\n1 37d9b5d994eab34eda9c16b195ace52c7b129980 b\n0 b789fdd96dc2f3bd229c1dd8eedf0fc60e2b68e3 a\n" }
{}

/// The later changeset comes first, and of one changeset the path that is less.
pub fn later_lines_come_first()
    ensures later { comes_before (line_of 10 [] (codes "b") 0) (line_of 9 [] (codes "a") 0) ≡ true }
    ensures earlier { comes_before (line_of 9 [] (codes "a") 0) (line_of 10 [] (codes "b") 0) ≡ false }
    ensures path { comes_before (line_of 9 [] (codes "a") 1) (line_of 9 [] (codes "a.b") 0) ≡ true }
    ensures itself { comes_before (line_of 9 [] (codes "a") 1) (line_of 9 [] (codes "a") 1) ≡ false }
{}
