//! Texts, and the records of their rows.

/// Texts, each with how many of its rows are sound, how many records get complete with each row, and its records.
pub(crate) const TEXTS: [(&str, usize, &str, &str); 22] = [
    (
        "---\n- a\n- b\n",
        3,
        "1010",
        "Row 0   None\n DocStart 0 +0:3 \n\
             Row 0   Some(DocStart)\n Entry 0 +0:1 \n Scalar(Plain) 2 +0:3 a\n\
             Row 0 1,  Some(Scalar(Plain))\n Entry 0 +0:1 \n Scalar(Plain) 2 +0:3 b\n\
             Row 0 -\n",
    ),
    (
        "---\n- a\n  b\n",
        2,
        "1000",
        "Row 0   None\n DocStart 0 +0:3 \n\
             Row 0   Some(DocStart)\n Entry 0 +0:1 \n Scalar(Plain) 2 +1:3 a b\n\
             Row 2 -\n\
             Row 0 -\n",
    ),
    (
        "---\n- 'x\n  y'\n- z\n",
        3,
        "10200",
        "Row 0   None\n DocStart 0 +0:3 \n\
             Row 0   Some(DocStart)\n Entry 0 +0:1 \n Scalar(Single) 2 +1:4 x y\n\
             Row 2 -\n\
             Row 0 1,  Some(Scalar(Single))\n Entry 0 +0:1 \n Scalar(Plain) 2 +0:3 z\n\
             Row 0 -\n",
    ),
    (
        "---\na: 1\n\n\nb: 2\n",
        3,
        "100030",
        "Row 0   None\n DocStart 0 +0:3 \n\
             Row 0   Some(DocStart)\n Scalar(Plain) 0 +0:1 a\n Value 1 +0:2 \n Scalar(Plain) 3 +0:4 1\n\
             Row 0 -\n\
             Row 0 -\n\
             Row 0 1,  Some(Scalar(Plain))\n Scalar(Plain) 0 +0:1 b\n Value 1 +0:2 \n Scalar(Plain) 3 +0:4 2\n\
             Row 0 -\n",
    ),
    (
        "---\na: 1\nb: 2\n",
        3,
        "1010",
        "Row 0   None\n DocStart 0 +0:3 \n\
             Row 0   Some(DocStart)\n Scalar(Plain) 0 +0:1 a\n Value 1 +0:2 \n Scalar(Plain) 3 +0:4 1\n\
             Row 0 1,  Some(Scalar(Plain))\n Scalar(Plain) 0 +0:1 b\n Value 1 +0:2 \n Scalar(Plain) 3 +0:4 2\n\
             Row 0 -\n",
    ),
    (
        "---\na: 'x\nb: 2\n",
        2,
        "1000",
        "Row 0   None\n DocStart 0 +0:3 \n\
             Row 0   Some(DocStart)\n Scalar(Plain) 0 +0:1 a\n Value 1 +0:2 \n Fault UnclosedQuote +0:3\n\
             Row 0 -\n\
             Row 0 -\n",
    ),
    (
        "---\na: @\nb: 1\n",
        3,
        "1111",
        "Row 0   None\n DocStart 0 +0:3 \n\
             Row 0   Some(DocStart)\n Scalar(Plain) 0 +0:1 a\n Value 1 +0:2 \n Fault NotAllowed +0:3\n\
             Row 0 stopped\n\
             Row 0 -\n",
    ),
    (
        "---\na: @\nc: [\n",
        3,
        "1111",
        "Row 0   None\n DocStart 0 +0:3 \n\
             Row 0   Some(DocStart)\n Scalar(Plain) 0 +0:1 a\n Value 1 +0:2 \n Fault NotAllowed +0:3\n\
             Row 0 stopped\n\
             Row 0 -\n",
    ),
    (
        "---\na: [\n  1,\n  2\n]\nb: 3\n",
        6,
        "1110200",
        "Row 0   None\n DocStart 0 +0:3 \n\
             Row 0   Some(DocStart)\n Scalar(Plain) 0 +0:1 a\n Value 1 +0:2 \n SeqOpen 3 +0:4 \n\
             Row 2 1, SeqOpen, Some(SeqOpen)\n Scalar(Plain) 2 +0:3 1\n Comma 3 +0:4 \n\
             Row 2 1, SeqOpen, Some(Comma)\n Scalar(Plain) 2 +0:3 2\n\
             Row 0 1, SeqOpen, Some(Scalar(Plain))\n SeqClose 0 +0:1 \n\
             Row 0 1,  Some(SeqClose)\n Scalar(Plain) 0 +0:1 b\n Value 1 +0:2 \n Scalar(Plain) 3 +0:4 3\n\
             Row 0 -\n",
    ),
    (
        "---\na: [\n  1,\n  2]\n]\nb: 3\n",
        6,
        "1111111",
        "Row 0   None\n DocStart 0 +0:3 \n\
             Row 0   Some(DocStart)\n Scalar(Plain) 0 +0:1 a\n Value 1 +0:2 \n SeqOpen 3 +0:4 \n\
             Row 2 1, SeqOpen, Some(SeqOpen)\n Scalar(Plain) 2 +0:3 1\n Comma 3 +0:4 \n\
             Row 2 1, SeqOpen, Some(Comma)\n Scalar(Plain) 2 +0:3 2\n SeqClose 3 +0:4 \n\
             Row 0 1,  Some(SeqClose)\n Fault BracketWithoutPartner +0:0\n\
             Row 0 stopped\n\
             Row 0 -\n",
    ),
    (
        "---\nk00000: v\nz: v\n",
        3,
        "1010",
        "Row 0   None\n DocStart 0 +0:3 \n\
             Row 0   Some(DocStart)\n Scalar(Plain) 0 +0:6 k00000\n Value 6 +0:7 \n Scalar(Plain) 8 +0:9 v\n\
             Row 0 1,  Some(Scalar(Plain))\n Scalar(Plain) 0 +0:1 z\n Value 1 +0:2 \n Scalar(Plain) 3 +0:4 v\n\
             Row 0 -\n",
    ),
    (
        "a:\n  - {b: |\n",
        2,
        "111",
        "Row 0   None\n Scalar(Plain) 0 +0:1 a\n Value 1 +0:2 \n\
             Row 2 1,  Some(Value)\n Entry 2 +0:3 \n MapOpen 4 +0:5 \n Scalar(Plain) 5 +0:6 b\n Value 6 +0:7 \n Fault NotAllowed +0:8\n\
             Row 0 -\n",
    ),
    (
        "- k: |2 # c\n     x\n\n- !t {d: \"e\n  f\",\n# g\n  h: [\n  *i ]}\n",
        5,
        "000321111",
        "Row 0   None\n Entry 0 +0:1 \n Scalar(Plain) 2 +0:3 k\n Value 3 +0:4 \n Scalar(Literal) 5 +1:6 \n\
             Row 5 -\n\
             Row 0 -\n\
             Row 0 3,1,  Some(Scalar(Literal))\n Entry 0 +0:1 \n Tag 2 +0:4 \n MapOpen 5 +0:6 \n Scalar(Plain) 6 +0:7 d\n Value 7 +0:8 \n Scalar(Double) 9 +1:4 e f\n\
             Row 2 -\n Comma 4 +0:5 \n\
             Row 0 1, MapOpen, Some(Comma)\n Comment 0 # g\n\
             Row 2 1, MapOpen, Some(Comma)\n Scalar(Plain) 2 +0:3 h\n Value 3 +0:4 \n SeqOpen 5 +0:6 \n\
             Row 2 1, SeqOpen,MapOpen, Some(SeqOpen)\n Alias 2 +0:4 i\n SeqClose 5 +0:6 \n MapClose 6 +0:7 \n\
             Row 0 -\n",
    ),
    (
        "- |\n   \n  x\n\n",
        2,
        "00311",
        "Row 0   None\n Entry 0 +0:1 \n Fault BadIndentation +1:3\n\
             Row 3 -\n\
             Row 2 stopped\n\
             Row 0 -\n\
             Row 0 -\n",
    ),
    (
        "- a\n  b\n\n  c\n",
        1,
        "00000",
        "Row 0   None\n Entry 0 +0:1 \n Scalar(Plain) 2 +3:3 a b\nc\n\
             Row 2 -\n\
             Row 0 -\n\
             Row 2 -\n\
             Row 0 -\n",
    ),
    (
        "a: |2\n   x\n\n  y\nb: 1\n",
        2,
        "000040",
        "Row 0   None\n Scalar(Plain) 0 +0:1 a\n Value 1 +0:2 \n Scalar(Literal) 3 +3:3 \n\
             Row 3 -\n\
             Row 0 -\n\
             Row 2 -\n\
             Row 0 1,  Some(Scalar(Literal))\n Scalar(Plain) 0 +0:1 b\n Value 1 +0:2 \n Scalar(Plain) 3 +0:4 1\n\
             Row 0 -\n",
    ),
    (
        "'x\n\ny'\n",
        1,
        "0031",
        "Row 0   None\n Scalar(Single) 0 +2:2 x\ny\n\
             Row 0 -\n\
             Row 0 -\n\
             Row 0 -\n",
    ),
    (
        "a\n#b\n",
        2,
        "021",
        "Row 0   None\n Scalar(Plain) 0 +0:1 a\n\
             Row 0   Some(Scalar(Plain))\n Comment 0 #b\n\
             Row 0 -\n",
    ),
    (
        "a: [\n  1,\n  2]",
        3,
        "111",
        "Row 0   None\n Scalar(Plain) 0 +0:1 a\n Value 1 +0:2 \n SeqOpen 3 +0:4 \n\
             Row 2 1, SeqOpen, Some(SeqOpen)\n Scalar(Plain) 2 +0:3 1\n Comma 3 +0:4 \n\
             Row 2 1, SeqOpen, Some(Comma)\n Scalar(Plain) 2 +0:3 2\n SeqClose 3 +0:4 \n",
    ),
    (
        "]\na: 1 # c\n\nb\n",
        3,
        "11111",
        "Row 0   None\n Fault BracketWithoutPartner +0:0\n\
             Row 0 stopped\n\
             Row 0 -\n\
             Row 0 stopped\n\
             Row 0 -\n",
    ),
    (
        "a:\n  - b: [\n    1,\n\n  2]\n  - [[[[[[[[[\n    ]], [\n    ], 1]]]]]]]\n  - 'x\n    y'\nc: @\nd: 1\n",
        10,
        "1111111102111",
        "Row 0   None\n Scalar(Plain) 0 +0:1 a\n Value 1 +0:2 \n\
             Row 2 1,  Some(Value)\n Entry 2 +0:3 \n Scalar(Plain) 4 +0:5 b\n Value 5 +0:6 \n SeqOpen 7 +0:8 \n\
             Row 4 5,3,1, SeqOpen, Some(SeqOpen)\n Scalar(Plain) 4 +0:5 1\n Comma 5 +0:6 \n\
             Row 0 -\n\
             Row 2 5,3,1, SeqOpen, Some(Comma)\n Scalar(Plain) 2 +0:3 2\n SeqClose 3 +0:4 \n\
             Row 2 5,3,1,  Some(SeqClose)\n Entry 2 +0:3 \n SeqOpen 4 +0:5 \n SeqOpen 5 +0:6 \n SeqOpen 6 +0:7 \n SeqOpen 7 +0:8 \n SeqOpen 8 +0:9 \n SeqOpen 9 +0:10 \n SeqOpen 10 +0:11 \n SeqOpen 11 +0:12 \n SeqOpen 12 +0:13 \n\
             Row 4 3,1, SeqOpen,SeqOpen,SeqOpen,SeqOpen,SeqOpen,SeqOpen,SeqOpen,SeqOpen,SeqOpen, Some(SeqOpen)\n SeqClose 4 +0:5 \n SeqClose 5 +0:6 \n Comma 6 +0:7 \n SeqOpen 8 +0:9 \n\
             Row 4 3,1, SeqOpen,SeqOpen,SeqOpen,SeqOpen,SeqOpen,SeqOpen,SeqOpen,SeqOpen, Some(SeqOpen)\n SeqClose 4 +0:5 \n Comma 5 +0:6 \n Scalar(Plain) 7 +0:8 1\n SeqClose 8 +0:9 \n SeqClose 9 +0:10 \n SeqClose 10 +0:11 \n SeqClose 11 +0:12 \n SeqClose 12 +0:13 \n SeqClose 13 +0:14 \n SeqClose 14 +0:15 \n\
             Row 2 3,1,  Some(SeqClose)\n Entry 2 +0:3 \n Scalar(Single) 4 +1:6 x y\n\
             Row 4 -\n\
             Row 0 3,1,  Some(Scalar(Single))\n Scalar(Plain) 0 +0:1 c\n Value 1 +0:2 \n Fault NotAllowed +0:3\n\
             Row 0 stopped\n\
             Row 0 -\n",
    ),
    (
        "- {\"a\": &b c,\n d: [e]} # f\n- 'g\n  h'\n- |\n  i\n",
        4,
        "1102000",
        "Row 0   None\n Entry 0 +0:1 \n MapOpen 2 +0:3 \n Scalar(Double) 3 +0:6 a\n Value 6 +0:7 \n Anchor 8 +0:10 b\n Scalar(Plain) 11 +0:12 c\n Comma 12 +0:13 \n\
             Row 1 1, MapOpen, Some(Comma)\n Scalar(Plain) 1 +0:2 d\n Value 2 +0:3 \n SeqOpen 4 +0:5 \n Scalar(Plain) 5 +0:6 e\n SeqClose 6 +0:7 \n MapClose 7 +0:8 \n Comment 9 # f\n\
             Row 0 1,  Some(MapClose)\n Entry 0 +0:1 \n Scalar(Single) 2 +1:4 g h\n\
             Row 2 -\n\
             Row 0 1,  Some(Scalar(Single))\n Entry 0 +0:1 \n Scalar(Literal) 2 +1:3 \n\
             Row 2 -\n\
             Row 0 -\n",
    ),
];

/// Texts of many rows, each with how many of its rows are sound.
pub(crate) const LONG: [(&str, usize); 4] = [
    (
        "---\n- v\n- v\n- v\n- v\n- v\n- v\n- v\n- v\n- v\n- v\n- v\n- v\n- v\n- v\n- v\n- v\n- v\n- v\n- v\n- v\n- v\n- v\n- v\n\
         - v\n- v\n- v\n- v\n- v\n- v\n- v\n- v\n- v\n- v\n- v\n- v\n- v\n- v\n- v\n- v\n- v\n",
        41,
    ),
    (
        "---\na: @\nb: 1\nb: 1\nb: 1\nb: 1\nb: 1\nb: 1\nb: 1\nb: 1\nb: 1\nb: 1\nb: 1\nb: 1\nb: 1\nb: 1\nb: 1\nb: 1\nb: 1\nb: 1\n\
         b: 1\nb: 1\nb: 1\nb: 1\nb: 1\nb: 1\nb: 1\nb: 1\nb: 1\nb: 1\nb: 1\nb: 1\nb: 1\nb: 1\nb: 1\nb: 1\nb: 1\nb: 1\nb: 1\nb: 1\n\
         b: 1\nb: 1\n",
        42,
    ),
    (
        "---\nk: v\n\nk: v\n\nk: v\n\nk: v\n\nk: v\n\nk: v\n\nk: v\n\nk: v\n\nk: v\n\nk: v\n\nk: v\n\nk: v\n\nk: v\n\nk: v\n\n\
         k: v\n\nk: v\n\nk: v\n\nk: v\n\nk: v\n\nk: v\n\nk: v\n\nk: v\n\nk: v\n\nk: v\n\nk: v\n\nk: v\n\nk: v\n\nk: v\n\nk: v\n\n\
         k: v\n\nk: v\n\nk: v\n\nk: v\n\nk: v\n\nk: v\n\nk: v\n\nk: v\n\nk: v\n\nk: v\n\nk: v\n\n",
        41,
    ),
    (
        "[{\n[{\n[{\n[{\n[{\n[{\n[{\n[{\n[{\n[{\n[{\n[{\n[{\n[{\n[{\n[{\n[{\n[{\n[{\n[{\n[{\n[{\n[{\n[{\n[{\n[{\n[{\n[{\n[{\n[{\n\
         [{\n[{\n[{\n[{\n[{\n[{\n[{\n[{\n[{\n[{\n",
        40,
    ),
];
