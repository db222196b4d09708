//! What a program runs on: ends, output and input, values, and shipped calls.

/// What a program runs on: ends, output and input, values, and shipped calls.
pub const RUNTIME: &[u8] = br#"/* Austral runtime 1 */
/* The words of lowered code as macros of C99, for gcc and clang. Below stands the code itself. */
#if __STDC_VERSION__ > 201710L
#error "compile with -std=c99, or up to c17"
#endif
#ifndef _POSIX_C_SOURCE
#define _POSIX_C_SOURCE 200809L
#endif
#include <errno.h>
#include <pthread.h>
#include <signal.h>
#include <stdint.h>
#include <stdlib.h>
#include <string.h>
#include <unistd.h>
#pragma GCC diagnostic ignored "-Wunused-label"
#pragma GCC diagnostic ignored "-Wunused-but-set-variable"
#pragma GCC diagnostic ignored "-Warray-bounds"
#if defined(__clang__) || __GNUC__ >= 12
#pragma GCC diagnostic ignored "-Winfinite-recursion"
#endif
#if defined(__clang__) && __clang_major__ >= 15
#pragma GCC diagnostic ignored "-Wdeprecated-non-prototype"
#endif
#define HELPER __attribute__((unused)) static
#define ENDS __attribute__((unused, noreturn, noinline)) static
#define RARE __attribute__((unused, noinline)) static
#define INLINED __attribute__((unused, always_inline)) static inline
/* nothing is found out about a function for those that call it: they may be very long */
#if defined(__clang__)
#define FAR_AWAY RARE
#else
#define FAR_AWAY __attribute__((unused, noipa)) static
#endif
#define LIKELY(X) __builtin_expect(!!(X), 1)
#define UNLIKELY(X) __builtin_expect(!!(X), 0)

/* With the address sanitizer each cell is an allocation of its own, and what is left at the end is told. */
#if defined(__SANITIZE_ADDRESS__)
#define WATCHED 1
#elif defined(__has_feature)
#if __has_feature(address_sanitizer)
#define WATCHED 1
#endif
#endif
#ifndef WATCHED
#define WATCHED 0
#endif

/* ---- ends, output and input */

/* how many bytes the stack may have at most, and how many of them are kept for the functions below */
#ifndef STACK_BYTES
#define STACK_BYTES ((size_t)1 << 30)
#endif
#define STACK_MARGIN ((size_t)4 << 20)

static unsigned char out_bytes[65536], in_bytes[65536];
static size_t out_size, in_size, in_next;
static uintptr_t stack_end;
static size_t stack_bytes;

/* ends at once with a status */
ENDS void quit(int status) {
  if (WATCHED) exit(status);
  _exit(status);
}

/* writes all of these bytes, or ends with 6 */
RARE void write_all(int file, const void *bytes, size_t size) {
  const char *at = bytes;
  while (size > 0) {
    ssize_t made = write(file, at, size);
    if (made > 0) {
      at += made;
      size -= (size_t)made;
    } else if (made == 0 || errno != EINTR) {
      quit(6);
    }
  }
}

RARE void flush(void) {
  size_t size = out_size;
  out_size = 0;
  write_all(1, out_bytes, size);
}

/* ends with a status, when the output is written */
ENDS void leave(int status) {
  flush();
  quit(status);
}

/* no memory */
ENDS void memory(void) { leave(7); }

/* ends with a line and a status */
ENDS void line_and_leave(const char *front, const void *text, size_t size, int status) {
  size_t length = strlen(front);
  char *line;
  flush();
  line = malloc(length + size + 1);
  if (!line) quit(7);
  memcpy(line, front, length);
  if (size > 0) memcpy(line + length, text, size);
  line[length + size] = '\n';
  write_all(2, line, length + size + 1);
  free(line);
  quit(status);
}

ENDS void aborts(const char *why) { line_and_leave("abort: ", why, strlen(why), 3); }
ENDS void arithmetic(void) { aborts("arithmetic"); }
ENDS void out_of_range(void) { aborts("out of range"); }

HELPER void put_byte(unsigned char byte) {
  if (UNLIKELY(out_size == sizeof out_bytes)) flush();
  out_bytes[out_size++] = byte;
}

RARE void put_bytes(const void *bytes, size_t size) {
  if (size > sizeof out_bytes - out_size) flush();
  if (size > sizeof out_bytes) {
    write_all(1, bytes, size);
  } else if (size > 0) {
    memcpy(out_bytes + out_size, bytes, size);
    out_size += size;
  }
}

/* takes more input; the output is written first */
RARE void refill(void) {
  ssize_t got;
  flush();
  do {
    got = read(0, in_bytes, sizeof in_bytes);
  } while (got < 0 && errno == EINTR);
  if (got < 0) line_and_leave("read fault", 0, 0, 5);
  in_size = (size_t)got;
  in_next = 0;
}

/* ---- values */

typedef uint64_t W;

/* A value: a word and its kind. */
typedef struct {
  W w, k;
} V;

/* PLAIN are truth values, numbers without sign, texts, boxes, buffers, Unit, and values of records and unions
   without fields, as twice the number of the case and 1. SIGNED are numbers with a sign, which fill the word.
   DATA is a cell, and READS and WRITES are references. */
enum { PLAIN, SIGNED, DATA, READS, WRITES };

/* The fields of a record or of a case of a union. Copies of a value share them. A box is a cell of one
   field. */
typedef struct cell {
  W shares;
  uint32_t tag, size;
  V f[];
} C;

/* A buffer: the words of its elements, and their kinds, which are left out where all are of one kind. */
typedef struct {
  W *words, *kinds;
  W kind, length, room;
} B;

typedef struct {
  W length;
  const char *bytes;
} X;

#define CELL(WORD) ((C *)(uintptr_t)(WORD))
#define BUFFER(WORD) ((B *)(uintptr_t)(WORD))
#define PLACE(WORD) ((V *)(uintptr_t)(WORD))
#define BYTES(WORD) ((const X *)(uintptr_t)(WORD))
#define WORD(POINTER) ((W)(uintptr_t)(POINTER))

/* cells that aren't in use, by their number of fields, and memory that wasn't used yet */
static C *spare[65];
static char *fresh;
static size_t fresh_size;

RARE C *more(size_t bytes) {
  C *c;
  if (WATCHED) {
    c = malloc(bytes);
    if (!c) memory();
    return c;
  }
  if (fresh_size < bytes) {
    fresh = malloc(65536);
    if (!fresh) memory();
    fresh_size = 65536;
  }
  c = (C *)(void *)fresh;
  fresh += bytes;
  fresh_size -= bytes;
  return c;
}

HELPER C *cell(uint32_t size, uint32_t tag) {
  C *c = spare[size];
  if (LIKELY(c != 0)) spare[size] = CELL(c->shares);
  else c = more(sizeof(C) + size * sizeof(V));
  c->shares = 1;
  c->tag = tag;
  c->size = size;
  return c;
}

/* a cell whose fields are gone is free */
HELPER void put_back(C *c) {
  if (WATCHED) {
    free(c);
  } else {
    c->shares = WORD(spare[c->size]);
    spare[c->size] = c;
  }
}

/* a share of a cell is gone; the last one takes the fields along, which are as deep as their type */
RARE void drop(C *c) {
  uint32_t i;
  if (--c->shares > 0) return;
  for (i = 0; i < c->size; i++) {
    if (c->f[i].k == DATA) drop(CELL(c->f[i].w));
  }
  put_back(c);
}

/* each field has one holder more */
RARE void share_fields(C *c) {
  uint32_t i;
  for (i = 0; i < c->size; i++) {
    if (c->f[i].k == DATA) CELL(c->f[i].w)->shares++;
  }
}

/* the same value in a cell that nothing else holds */
RARE W copied(C *c) {
  C *d = cell(c->size, c->tag);
  uint32_t i;
  for (i = 0; i < c->size; i++) {
    d->f[i].w = c->f[i].w;
    d->f[i].k = c->f[i].k;
  }
  share_fields(c);
  c->shares--;
  return WORD(d);
}

HELPER W own(W word) { return LIKELY(CELL(word)->shares == 1) ? word : copied(CELL(word)); }

/* the part that a path leads to from a cell */
HELPER V *part(W word, const uint32_t *path, int size) {
  V *at = &CELL(word)->f[path[0]];
  int i;
  for (i = 1; i < size; i++) at = &CELL(at->w)->f[path[i]];
  return at;
}

/* the same, to change it: the cells on the way are held by nothing else then */
HELPER V *own_part(W word, const uint32_t *path, int size) {
  V *at = &CELL(word)->f[path[0]];
  int i;
  for (i = 1; i < size; i++) {
    at->w = own(at->w);
    at = &CELL(at->w)->f[path[i]];
  }
  return at;
}

/* the part that a path leads to from what a reference reaches, and the same, to change it */
HELPER V *lent_part(W word, const uint32_t *path, int size) {
  return size > 0 ? part(PLACE(word)->w, path, size) : PLACE(word);
}
HELPER V *lent_own_part(W word, const uint32_t *path, int size) {
  V *at = PLACE(word);
  if (size == 0) return at;
  at->w = own(at->w);
  return own_part(at->w, path, size);
}

/* references to the fields of what a reference reaches, and the number of its case */
static V lent[64];
static W lent_size;
RARE W lend(W word, W kind) {
  V *at = PLACE(word);
  C *c;
  uint32_t i;
  lent_size = 0;
  if (at->k != DATA) return at->w >> 1;
  if (kind == WRITES) at->w = own(at->w);
  c = CELL(at->w);
  for (i = 0; i < c->size; i++) {
    lent[i].w = WORD(&c->f[i]);
    lent[i].k = kind;
  }
  lent_size = c->size;
  return c->tag;
}

/* fields go to slots */
RARE void spread(V *to, const V *from, W size) {
  W i;
  for (i = 0; i < size; i++) {
    if (to[i].k == DATA) drop(CELL(to[i].w));
    to[i].w = from[i].w;
    to[i].k = from[i].k;
  }
}

/* slots end */
RARE void let_all(V *slots, int size) {
  int i;
  for (i = 0; i < size; i++) {
    if (slots[i].k == DATA) drop(CELL(slots[i].w));
  }
}

HELPER int is_above(W a, W b, W kind) { return kind == SIGNED ? (int64_t)a > (int64_t)b : a > b; }

/* whether a division has no result in range: by 0, or of the least number by -1 */
HELPER int cannot_divide(W a, W b, W kind, int64_t least) {
  return b == 0 || (kind == SIGNED && (int64_t)b == -1 && (int64_t)a == least);
}

/* whether a number is in a range */
HELPER int fits(W a, W kind, int64_t least, W most) {
  return kind == SIGNED && (int64_t)a < 0 ? (int64_t)a >= least : a <= most;
}

/* ---- shipped calls */

RARE void print_int(W word, W kind) {
  char digits[24];
  size_t at = sizeof digits;
  const int is_below = kind == SIGNED && (int64_t)word < 0;
  W rest = is_below ? 0 - word : word;
  do {
    digits[--at] = (char)('0' + rest % 10);
    rest /= 10;
  } while (rest > 0);
  if (is_below) digits[--at] = '-';
  put_bytes(digits + at, sizeof digits - at);
}

HELPER void print_bool(W truth) { put_bytes(truth ? "true" : "false", truth ? 4 : 5); }
HELPER void print_text(W text) { put_bytes(BYTES(text)->bytes, BYTES(text)->length); }
ENDS void abort_with(W text) { line_and_leave("abort: ", BYTES(text)->bytes, BYTES(text)->length, 3); }

RARE W new_buffer(void) {
  B *b = calloc(1, sizeof(B));
  if (!b) memory();
  return WORD(b);
}

RARE void end_buffer(B *b) {
  if (b->length > 0) aborts("buffer not empty");
  free(b->words);
  free(b->kinds);
  free(b);
}

RARE W *resized(W *words, W room) {
  W *larger = room > SIZE_MAX / sizeof(W) ? 0 : realloc(words, (size_t)room * sizeof(W));
  if (!larger) memory();
  return larger;
}

RARE void widen(B *b) {
  W room = b->room > 0 ? 2 * b->room : 4;
  b->words = resized(b->words, room);
  if (b->kinds) b->kinds = resized(b->kinds, room);
  b->room = room;
}

/* the kinds are no longer one */
RARE void mix(B *b) {
  W i;
  b->kinds = resized(0, b->room);
  for (i = 0; i < b->length; i++) b->kinds[i] = b->kind;
}

HELPER W kind_at(const B *b, W index) { return UNLIKELY(b->kinds != 0) ? b->kinds[index] : b->kind; }

HELPER void put_at(B *b, W index, W word, W kind) {
  if (UNLIKELY(kind != b->kind) && !b->kinds) mix(b);
  if (UNLIKELY(b->kinds != 0)) b->kinds[index] = kind;
  b->words[index] = word;
}

HELPER void insert_back(B *b, W word, W kind) {
  if (UNLIKELY(b->length == b->room)) widen(b);
  if (b->length == 0) b->kind = kind;
  put_at(b, b->length, word, kind);
  b->length++;
}

HELPER W place_in(const B *b, W index) {
  if (UNLIKELY(index >= b->length)) out_of_range();
  return index;
}

HELPER W last_of(B *b) {
  if (UNLIKELY(b->length == 0)) aborts("buffer empty");
  return --b->length;
}

/* the next byte of the input, or -1 where none is left */
HELPER int read_byte(void) {
  if (UNLIKELY(in_next == in_size)) {
    refill();
    if (in_size == 0) return -1;
  }
  return in_bytes[in_next++];
}

/* runs the program on a stack of its own, as large as there is */
HELPER void start(void *(*begin)(void *)) {
  for (stack_bytes = STACK_BYTES; stack_bytes >= 2 * STACK_MARGIN; stack_bytes /= 2) {
    pthread_attr_t how;
    pthread_t thread;
    if (pthread_attr_init(&how)) return;
    if (!pthread_attr_setstacksize(&how, stack_bytes) && !pthread_create(&thread, &how, begin, 0)) {
      pthread_join(thread, 0);
    }
    pthread_attr_destroy(&how);
  }
}

"#;
