// The pieces of text of a graph.

// What a graph begins with: what its signs mean, how it is laid out, and a legend, which is a sample of each sign in a frame. The
// names of the samples have blanks, so they are no object's; arrows that are not seen put them into two columns.
pub(crate) const HEAD: &[u8] =
    b"// An arrow goes from an object to what it observes; that of a registration is dashed, that to `today` is light.\n// Ellipses are sources, hexagons pass notices on, boxes are priced, dotted octagons are watchers.\n// A box is green where its value is fresh, grey where it is not current, blue where it is frozen, orange where it is late,\n// yellow where something beneath it is held, red where it is held and has no value.\n// A double border is a deferred source: it changed, and has told nobody yet.\ndigraph session {\n  rankdir=LR;\n  node [fontname=\"sans-serif\", fontsize=11, style=filled, fillcolor=white];\n  edge [arrowsize=0.7];\n  subgraph cluster_legend {\n    label=\"An arrow leads to what an object observes: dashed\\lto what a watcher is registered with, light to today.\\l\";\n    fontname=\"sans-serif\"; fontsize=10; labeljust=l; color=\"#c8c8c8\";\n    node [fontsize=10, height=0.3];\n    edge [style=invis];\n    \"a source\" [shape=ellipse];\n    \"a deferred source\" [shape=ellipse, peripheries=2];\n    \"it passes notices on\" [shape=hexagon];\n    \"it is priced\" [shape=box];\n    \"a watcher\" [shape=octagon, style=\"filled,dotted\"];\n    \"it is fresh\" [shape=box, fillcolor=\"#b7e1a1\", label=\"fresh\"];\n    \"it is not current\" [shape=box, fillcolor=\"#d9d9d9\", label=\"not current\"];\n    \"it is frozen\" [shape=box, fillcolor=\"#a9cdf2\", label=\"frozen\"];\n    \"it is late\" [shape=box, fillcolor=\"#ffc680\", label=\"late\"];\n    \"it is held\" [shape=box, fillcolor=\"#fff2a8\", label=\"held\"];\n    \"it is unpriced\" [shape=box, fillcolor=\"#f4a6a6\", label=\"frozen or late, unpriced\"];\n    \"it is fresh\" -> \"a source\";\n    \"it is not current\" -> \"a deferred source\";\n    \"it is frozen\" -> \"it passes notices on\";\n    \"it is late\" -> \"it is priced\";\n    \"it is held\" -> \"a watcher\";\n  }\n";

// What it ends with.
pub(crate) const FOOT: &[u8] = b"}\n";

// A node: its name, its shape, its colour, its border and its label.
pub(crate) const NODE: &[u8] = b"  \"";

pub(crate) const SHAPE: &[u8] = b"\" [shape=";

pub(crate) const DEFERRED: &[u8] = b", peripheries=2";

pub(crate) const LABEL: &[u8] = b", label=\"";

pub(crate) const NODE_END: &[u8] = b"\"];\n";

// The next line of a label.
pub(crate) const LINE: &[u8] = b"\\n";

// An arrow: the name of the observer, and that of the subject.
pub(crate) const ARROW: &[u8] = b"\" -> \"";

pub(crate) const ARROW_END: &[u8] = b"\";\n";

pub(crate) const DASHED_END: &[u8] = b"\" [style=dashed];\n";

// The same of an arrow to `today`, which is light, and moves no object to another column.
pub(crate) const LIGHT_END: &[u8] = b"\" [color=\"#c8c8c8\", constraint=false];\n";

pub(crate) const LIGHT_DASHED_END: &[u8] =
    b"\" [style=dashed, color=\"#c8c8c8\", constraint=false];\n";
